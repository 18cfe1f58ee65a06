use case_tables::{Cases, read_fields};

const LEVELS: [(&str, u8); 4] = [("low", 1), ("high", 2), ("low", 3), ("Höhe", 4)];

/// The values of a name: as it is written, and in any case of its ASCII letters.
const LOOK_UPS: [(&str, Option<u8>, Option<u8>); 6] = [
    ("low", Some(1), Some(1)),
    ("HIGH", None, Some(2)),
    ("höhe", None, Some(4)),
    ("HÖHE", None, None),
    ("hig", None, None),
    ("", None, None),
];

#[derive(Debug, Clone, Copy, PartialEq, Eq)]
enum Shape {
    Frame { low: u8, high: u8, depth: u8 },
}

#[derive(Debug, Clone, Copy, PartialEq, Eq)]
struct Absent(&'static str);

fn required(members: &[(&'static str, u8)], name: &'static str) -> Result<u8, Absent> {
    Cases { rows: members }.find(name).ok_or(Absent(name))
}

fn or_else(members: &[(&'static str, u8)], name: &'static str, other: u8) -> Result<u8, Absent> {
    Ok(Cases { rows: members }.find(name).unwrap_or(other))
}

// Refuses the first member of another name.
fn only(members: &[(&'static str, u8)], names: &[&str]) -> Result<(), Absent> {
    match members
        .iter()
        .find(|row| !names.iter().any(|name| *name == row.0))
    {
        Some(row) => Err(Absent(row.0)),
        None => Ok(()),
    }
}

fn read_shape(members: &[(&'static str, u8)]) -> Result<Shape, Absent> {
    let shape =
        read_fields!((members); only; { low: required, high: required, depth: or_else(9) } => {
        Shape::Frame { low, high, depth }
    });
    Ok(shape)
}

#[test]
fn first_rows_and_fields(rt: HostRuntime) {
    let levels = Cases { rows: &LEVELS };
    for (name, value, in_any_case) in LOOK_UPS {
        assert_eq!(rt; levels.find(name), value, "{name}");
        assert_eq!(rt;
            levels.find_in_any_case(name.as_bytes()),
            in_any_case,
            "{name}"
        );
    }
    assert!(rt; !levels.distinct());
    assert!(rt; Cases { rows: &LEVELS[1..] }.distinct());

    let (low, high, depth) = (1, 2, 9);
    assert_eq!(rt;
        read_shape(&LEVELS[..3]),
        Ok(Shape::Frame { low, high, depth })
    );
    assert_eq!(rt; read_shape(&LEVELS), Err(Absent("Höhe")));
    assert_eq!(rt; read_shape(&LEVELS[..1]), Err(Absent("high")));
    assert_eq!(rt; read_shape(&[]), Err(Absent("low")));
}
