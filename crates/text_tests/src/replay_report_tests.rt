use replay_report::replay_all;
use simplex::Memory;
use std::alloc::Global;

// The bytes, the text of the report on them, and its numbers of parts and of those accepted.
type Case = (&'static [u8], &'static [u8], u64, u64);

fn is_reported(alloc: Global, case: &Case) -> Result<bool, Memory> {
    let (bytes, text, parts, accepted) = *case;
    let report = replay_all(alloc, bytes)?;
    Ok(report.text.as_slice() == text && report.parts == parts && report.accepted == accepted)
}

const WITHOUT_PARTS: &[Case] = &[
    (b"", b"checked 0 accepted 0\n", 0, 0),
    (
        b"[1] ok 3\n\nend\ncertificates\n certificate 1 sphere\n[2] refused void",
        b"checked 0 accepted 0\n",
        0,
        0,
    ),
];

#[test]
fn lines_outside_the_parts_are_passed_over(rt: HostRuntime) -> Result<(), Memory> {
    for case in WITHOUT_PARTS {
        assert!(rt; is_reported(rt.alloc(), case)?);
    }
    Ok(())
}

const ENDS: &[Case] = &[
    // A part ends before the next one.
    (
        b"certificate 1 sphere\nfacets [[1,2],[1,3],[2,3]]\n\
certificate 1 sphere\nfacets [[1,2],[1,3],[2,3]]\nend\n",
        b"refused form 3\naccepted sphere 0\nchecked 2 accepted 1\n",
        2,
        1,
    ),
    (
        b"certificate 1 sphere\nfacets [[1,2],[1,3],[2,3]]\nend\n",
        b"accepted sphere 0\nchecked 1 accepted 1\n",
        1,
        1,
    ),
    // The same without the line feed of its end.
    (
        b"certificate 1 sphere\nfacets [[1,2],[1,3],[2,3]]\nend",
        b"refused form 3\nchecked 1 accepted 0\n",
        1,
        0,
    ),
];

#[test]
fn a_part_has_its_end_with_a_line_feed(rt: HostRuntime) -> Result<(), Memory> {
    for case in ENDS {
        assert!(rt; is_reported(rt.alloc(), case)?);
    }
    Ok(())
}

const SPHERES: &[Case] = &[
    (
        b"certificate 1 sphere\nfacets [[1,3],[1,2],[2,3]]\nend\n",
        b"refused form 2\nchecked 1 accepted 0\n",
        1,
        0,
    ),
    (
        b"certificate 1 sphere\nfacets []\nend\n",
        b"refused start\nchecked 1 accepted 0\n",
        1,
        0,
    ),
    (
        b"certificate 1 sphere\nfacets [[1,2],[1,4],[2,3],[3,4]]\nend\n",
        b"refused end\nchecked 1 accepted 0\n",
        1,
        0,
    ),
    (
        b"certificate 1 sphere\nfacets [[1,2],[1,3],[2,3]]\nflip [1,2] [900]\nflip [900] [1,2]\nend\n",
        b"accepted sphere 2\nchecked 1 accepted 1\n",
        1,
        1,
    ),
];

#[test]
fn spheres_are_judged(rt: HostRuntime) -> Result<(), Memory> {
    for case in SPHERES {
        assert!(rt; is_reported(rt.alloc(), case)?);
    }
    Ok(())
}

const MANIFOLDS: &[Case] = &[
    (
        b"certificate 1 manifold\nfacets [[1,2],[1,3],[2,3]]\nlink 1\nlink 2\nlink 3\nend\n",
        b"accepted manifold 0\nchecked 1 accepted 1\n",
        1,
        1,
    ),
    (
        b"certificate 1 manifold\nfacets [[1,2],[1,3],[2,3]]\nlink 1\nlink 2\nend\n",
        b"refused links 3\nchecked 1 accepted 0\n",
        1,
        0,
    ),
];

#[test]
fn manifolds_have_a_block_for_each_vertex(rt: HostRuntime) -> Result<(), Memory> {
    for case in MANIFOLDS {
        assert!(rt; is_reported(rt.alloc(), case)?);
    }
    Ok(())
}
