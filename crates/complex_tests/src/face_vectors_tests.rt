use face_vectors::{Counts, euler, f, g, h};
use std::process::Abort;

// The numbers of faces of a complex, and what is known of it.
struct Known {
    name: &'static str,
    faces: &'static [u64],
    h: &'static [i64],
    g: &'static [i64],
    euler: i64,
}

// The numbers of faces with 1, 2, .. labels, as counts.
fn counts(faces: &[u64]) -> Counts {
    let mut at = [0; 12];
    for (place, count) in at.iter_mut().zip(faces) {
        *place = *count;
    }
    Counts {
        size: faces.len(),
        at,
    }
}

fn meets(rt: &impl Abort, known: &Known) {
    let c = counts(known.faces);
    assert!(rt; c.is_within_limits(), "{}", known.name);
    assert_eq!(rt; h(&c).as_slice(), known.h, "{}", known.name);
    assert_eq!(rt; g(&c).as_slice(), known.g, "{}", known.name);
    assert_eq!(rt; euler(&c), known.euler, "{}", known.name);
    let f = f(&c);
    assert_eq!(rt; f.len, known.faces.len(), "{}", known.name);
    for (entry, count) in f.as_slice().iter().zip(known.faces) {
        assert!(rt; *entry >= 0 && *entry as u64 == *count, "{}", known.name);
    }
}

// Triangulations of SageMath 9.5, counted by Gudhi 3.7 and a program of their h-vectors.
const TRIANGULATIONS: [Known; 10] = [
    Known {
        name: "real projective plane",
        faces: &[6, 15, 10],
        h: &[1, 3, 6, 0],
        g: &[1, 2],
        euler: 1,
    },
    Known {
        name: "torus",
        faces: &[7, 21, 14],
        h: &[1, 4, 10, -1],
        g: &[1, 3],
        euler: 0,
    },
    Known {
        name: "Klein bottle",
        faces: &[8, 24, 16],
        h: &[1, 5, 11, -1],
        g: &[1, 4],
        euler: 0,
    },
    Known {
        name: "dunce hat",
        faces: &[8, 24, 17],
        h: &[1, 5, 11, 0],
        g: &[1, 4],
        euler: 1,
    },
    Known {
        name: "Rudin's ball",
        faces: &[14, 66, 94, 41],
        h: &[1, 10, 30, 0, 0],
        g: &[1, 9, 20],
        euler: 1,
    },
    Known {
        name: "real projective space",
        faces: &[11, 51, 80, 40],
        h: &[1, 7, 24, 7, 1],
        g: &[1, 6, 17],
        euler: 0,
    },
    Known {
        name: "Poincare sphere",
        faces: &[16, 106, 180, 90],
        h: &[1, 12, 64, 12, 1],
        g: &[1, 11, 52],
        euler: 0,
    },
    Known {
        name: "Barnette's sphere",
        faces: &[8, 27, 38, 19],
        h: &[1, 4, 9, 4, 1],
        g: &[1, 3, 5],
        euler: 0,
    },
    Known {
        name: "complex projective plane",
        faces: &[9, 36, 84, 90, 36],
        h: &[1, 4, 10, 20, -1, 2],
        g: &[1, 3, 6],
        euler: 3,
    },
    Known {
        name: "K3 surface",
        faces: &[16, 120, 560, 720, 288],
        h: &[1, 11, 66, 286, -99, 23],
        g: &[1, 10, 55],
        euler: 24,
    },
];

// The complex with the empty face alone, the simplex of 12 vertices, and the boundary of that of 13, whose h-vector is all ones.
const EXTREMES: [Known; 3] = [
    Known {
        name: "empty face",
        faces: &[],
        h: &[1],
        g: &[1],
        euler: 0,
    },
    Known {
        name: "simplex",
        faces: &[12, 66, 220, 495, 792, 924, 792, 495, 220, 66, 12, 1],
        h: &[1, 0, 0, 0, 0, 0, 0, 0, 0, 0, 0, 0, 0],
        g: &[1, -1, 0, 0, 0, 0, 0],
        euler: 1,
    },
    Known {
        name: "simplex boundary",
        faces: &[13, 78, 286, 715, 1287, 1716, 1716, 1287, 715, 286, 78, 13],
        h: &[1, 1, 1, 1, 1, 1, 1, 1, 1, 1, 1, 1, 1],
        g: &[1, 0, 0, 0, 0, 0, 0],
        euler: 0,
    },
];

#[test]
fn vectors_of_known_triangulations(rt: HostRuntime) {
    for known in &TRIANGULATIONS {
        meets(&rt, known);
    }
}

#[test]
fn vectors_at_the_least_and_the_greatest_size(rt: HostRuntime) {
    for known in &EXTREMES {
        meets(&rt, known);
    }
}

#[test]
fn places_past_the_size_do_not_matter(rt: HostRuntime) {
    let torus = counts(&[7, 21, 14]);
    let mut other = torus;
    other.at[3] = 5;
    assert!(rt; torus.is_within_limits() && other.is_within_limits());
    assert_eq!(rt; f(&other), f(&torus));
    assert_eq!(rt; h(&other), h(&torus));
    assert_eq!(rt; g(&other), g(&torus));
    assert_eq!(rt; euler(&other), euler(&torus));
}

#[test]
fn limits_of_counts(rt: HostRuntime) {
    let at = [1 << 31; 12];
    assert!(rt; Counts { size: 12, at }.is_within_limits());
    assert!(rt; !Counts { size: 13, at }.is_within_limits());
    let above = [(1 << 31) + 1; 12];
    assert!(rt; !Counts { size: 1, at: above }.is_within_limits());
    assert!(rt; Counts { size: 0, at: above }.is_within_limits());
}
