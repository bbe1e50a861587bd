//! Certificates worked by hand, and what is no certificate.
use flip_certificate::{CertFault, Kind, flip_count, read, write};
use simplex::Memory;
use std::alloc::Global;

// The boundary of a tetrahedron, which is one of a simplex as it stands.
const SPHERE: &[u8] = b"certificate 1 sphere\nfacets [[1,2,3],[1,2,4],[1,3,4],[2,3,4]]\nend\n";

// Two cycles of four vertices.
const CYCLES: &[u8] =
    b"certificate 1 equivalent\nfrom [[1,2],[1,4],[2,3],[3,4]]\nto [[1,3],[1,4],[2,3],[2,4]]\nmap [[1,1],[2,3],[3,2],[4,4]]\nend\n";

// A cycle of four vertices and one of five.
const LONGER_CYCLE: &[u8] =
    b"certificate 1 equivalent\nfrom [[1,2],[1,4],[2,3],[3,4]]\nto [[1,2],[1,5],[2,3],[3,4],[4,5]]\nflip [1] [2,4]\nmap [[2,1],[3,2],[4,3]]\nflip [1,3] [4]\nflip [1,4] [5]\nend\n";

// A triangle, whose links are pairs of points.
const TRIANGLE: &[u8] =
    b"certificate 1 manifold\nfacets [[1,2],[1,3],[2,3]]\nlink 1\nlink 2\nlink 3\nend\n";

// The bytes and their line at fault.
type Fault = (&'static [u8], u64);

// The line at which the bytes are no certificate, or 0 where they are one.
fn form_line(alloc: Global, bytes: &[u8]) -> Result<u64, Memory> {
    match read(alloc, bytes) {
        Ok(_) => Ok(0),
        Err(CertFault::Form { line }) => Ok(line),
        Err(CertFault::Memory) => Err(Memory),
    }
}

fn is_written_back(alloc: Global, text: &[u8]) -> Result<bool, CertFault> {
    let certificate = read(alloc, text)?;
    let written = write(alloc, &certificate)?;
    Ok(written.as_slice() == text)
}

#[test]
fn certificates_are_written_as_they_were_read(rt: HostRuntime) -> Result<(), CertFault> {
    for text in [SPHERE, CYCLES, LONGER_CYCLE, TRIANGLE] {
        assert!(rt; is_written_back(rt.alloc(), text)?);
    }
    Ok(())
}

fn kind_and_flips(alloc: Global, text: &[u8]) -> Result<(Kind, u64), CertFault> {
    let certificate = read(alloc, text)?;
    Ok((certificate.kind(), flip_count(&certificate)))
}

#[test]
fn flips_are_counted_before_and_after_the_map(rt: HostRuntime) -> Result<(), CertFault> {
    let longer = kind_and_flips(rt.alloc(), LONGER_CYCLE)?;
    assert_eq!(rt; longer, (Kind::Equivalent, 3));
    Ok(())
}

#[test]
fn flips_are_counted_in_all_blocks(rt: HostRuntime) -> Result<(), CertFault> {
    let blocks = kind_and_flips(
        rt.alloc(),
        b"certificate 1 manifold\nfacets []\nlink 7\nflip [1] [2]\nlink 7\nflip [] []\nflip [3] []\nend\n",
    )?;
    assert_eq!(rt; blocks, (Kind::Manifold, 3));
    Ok(())
}

const ALTERED: &[Fault] = &[
    (
        b"certificate 1 equivalent\nfrom [[1,2],[1,4],[2,3],[3,4]]\nto [[1,2],[1,5],[2,3],[3,4],[4,5]]\nflip [1] [4,2]\nmap [[2,1],[3,2],[4,3]]\nend\n",
        4,
    ),
    (
        b"certificate 1 equivalent\nfrom [[1,2],[1,4],[2,3],[3,4]]\nto [[1,2],[1,5],[2,3],[3,4],[4,5]]\nflip [1]  [2,4]\nmap [[2,1],[3,2],[4,3]]\nend\n",
        4,
    ),
    (
        b"certificate 1 equivalent\nfrom [[1,2],[1,4],[2,3],[3,4]]\nto [[1,2],[1,5],[2,3],[3,4],[4,5]]\nflip [01] [2,4]\nmap [[2,1],[3,2],[4,3]]\nend\n",
        4,
    ),
    (
        b"certificate 1 equivalent\nfrom [[1,2],[1,4],[2,3],[3,4]]\nto [[1,2],[1,5],[2,3],[3,4],[4,5]]\nflip [1] [2,1000001]\nmap [[2,1],[3,2],[4,3]]\nend\n",
        4,
    ),
    (
        b"certificate 1 equivalent\nfrom [[1,2],[1,4],[2,3],[3,4]]\nto [[1,2],[1,5],[2,3],[3,4],[4,5]]\nflip [1] [2,4]\nflip [1,3] [4]\nflip [1,4] [5]\nend\n",
        7,
    ),
    (
        b"certificate 1 equivalent\r\nfrom [[1,2],[1,4],[2,3],[3,4]]\nto [[1,2],[1,5],[2,3],[3,4],[4,5]]\nmap []\nend\n",
        1,
    ),
];

#[test]
fn altered_lines_are_at_fault(rt: HostRuntime) -> Result<(), Memory> {
    for (text, line) in ALTERED {
        assert_eq!(rt; form_line(rt.alloc(), text)?, *line);
    }
    Ok(())
}

const OUT_OF_PLACE: &[Fault] = &[
    (
        b"certificate 1 sphere\nfacets [[1,3],[1,2],[2,3]]\nend\n",
        2,
    ),
    (b"certificate 1 sphere\nfacets [[1,2],[1,3],[2,3]]\n", 3),
    (b"certificate 1 sphere\nfacets [[1,2],[2]]\nend\n", 2),
    (b"certificate 1 manifold\nfacets []\nflip [1] [2]\nend\n", 3),
    (b"certificate 1 sphere\nfacets []\nend", 3),
    (b"certificate 1 sphere\nfacets []\nend\n\n", 4),
    (b"certificate 2 sphere\nfacets []\nend\n", 1),
    (b"", 1),
];

#[test]
fn lines_that_cannot_follow_are_at_fault(rt: HostRuntime) -> Result<(), Memory> {
    for (text, line) in OUT_OF_PLACE {
        assert_eq!(rt; form_line(rt.alloc(), text)?, *line);
    }
    Ok(())
}

#[test]
fn empty_lists_are_spelled_well(rt: HostRuntime) -> Result<(), Memory> {
    let alloc = rt.alloc();
    let cases: [&[u8]; 4] = [
        b"certificate 1 sphere\nfacets []\nend\n",
        b"certificate 1 sphere\nfacets [[]]\nflip [] []\nend\n",
        b"certificate 1 equivalent\nfrom []\nto []\nmap []\nend\n",
        b"certificate 1 manifold\nfacets []\nend\n",
    ];
    for text in cases {
        assert_eq!(rt; form_line(alloc, text)?, 0);
    }
    Ok(())
}

#[test]
fn proper_fronts_are_no_certificates(rt: HostRuntime) -> Result<(), Memory> {
    let alloc = rt.alloc();
    for len in 0..CYCLES.len() {
        let line = form_line(alloc, &CYCLES[..len])?;
        let before = CYCLES[..len].iter().filter(|byte| **byte == b'\n').count();
        assert_eq!(rt; line, before as u64 + 1);
    }
    Ok(())
}
