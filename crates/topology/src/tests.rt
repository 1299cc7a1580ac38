use super::fault::{Reason, Refused};
use super::hall::Topology;
use super::lines::Line;
use super::lines::Line::{Lamp, Most, Unknown, Wire};
use std::alloc::{AllocError, Global};
use std::process::Abort;
use std::test::Fail;
use telling::fault::Fault;

// A lamp in the middle, wired to each of the others.
fn star(heap: Global, arms: u8) -> Result<Vec<Line>, AllocError> {
    let arms = u32::from(arms);
    let mut lines = vec![in heap; Most(arms + 1)]?;
    for name in 0..arms + 1 {
        lines.push(Lamp(name))?;
    }
    for place in 1..arms + 1 {
        lines.push(Wire(0, place))?;
    }
    Ok(lines)
}

fn accepted(rt: &impl Abort, heap: Global, lines: &[Line], wires: &[&[u32]]) -> Result<(), Fail> {
    let Ok(topology) = Topology::of(heap, lines) else {
        return Err(Fail::new("refused"));
    };
    assert_eq!(rt; topology.sites().len(), wires.len());
    for (site, places) in topology.sites().iter().zip(wires.iter()) {
        assert!(rt; site.places() == *places);
    }
    Ok(())
}

fn refused(
    rt: &impl Abort,
    heap: Global,
    lines: &[Line],
    line: Option<usize>,
    text: &str,
) -> Result<(), Fail> {
    let Err(Fault::Refused(refused)) = Topology::of(heap, lines) else {
        return Err(Fail::new("not refused"));
    };
    assert_eq!(rt; refused.line, line, "{}", text);
    assert_eq!(rt; refused.reason.text(), text);
    Ok(())
}

#[test]
fn good_halls(rt: HostRuntime) -> Result<(), Fail> {
    let heap = rt.alloc();
    accepted(&rt, heap, &[Most(1), Lamp(7)], &[&[]])?;
    accepted(
        &rt,
        heap,
        &[Most(9), Lamp(5), Lamp(3), Lamp(8), Wire(0, 1), Wire(1, 2)],
        &[&[1], &[0, 2], &[1]],
    )?;
    accepted(
        &rt,
        heap,
        &[
            Most(4),
            Lamp(1),
            Lamp(2),
            Lamp(3),
            Lamp(4),
            Wire(3, 2),
            Wire(0, 1),
            Wire(2, 1),
            Wire(1, 2),
            Wire(3, 0),
            Wire(0, 3),
        ],
        &[&[1, 3], &[0, 2], &[1, 3], &[0, 2]],
    )?;
    let lines = star(heap, 16)?;
    assert!(rt; Topology::of(heap, lines.as_slice()).is_ok());
    Ok(())
}

#[test]
fn order(rt: HostRuntime) -> Result<(), Fail> {
    let heap = rt.alloc();
    let text = "a line that may not stand here";
    refused(&rt, heap, &[], Some(1), text)?;
    refused(&rt, heap, &[Lamp(1)], Some(1), text)?;
    refused(&rt, heap, &[Most(0), Most(0)], Some(2), text)?;
    refused(&rt, heap, &[Most(2), Lamp(1), Unknown], Some(3), text)?;
    refused(
        &rt,
        heap,
        &[Most(2), Lamp(1), Wire(7, 7), Lamp(1)],
        Some(4),
        text,
    )?;
    let text = "the most lamps are none, or above 1024";
    refused(&rt, heap, &[Most(0)], Some(1), text)?;
    refused(&rt, heap, &[Most(1025), Lamp(1)], Some(1), text)
}

#[test]
fn names(rt: HostRuntime) -> Result<(), Fail> {
    let heap = rt.alloc();
    refused(&rt, heap, &[Most(1), Wire(0, 0)], None, "no lamps")?;
    let lines = [Most(2), Lamp(1), Lamp(2), Lamp(1)];
    refused(&rt, heap, &lines, None, "more lamps than the most")?;
    let lines = [
        Most(9),
        Lamp(5),
        Lamp(6),
        Lamp(7),
        Lamp(5),
        Lamp(6),
        Wire(9, 9),
    ];
    refused(&rt, heap, &lines, Some(5), "a name that another lamp has")
}

#[test]
fn wires(rt: HostRuntime) -> Result<(), Fail> {
    let heap = rt.alloc();
    let text = "a wire to a place without a lamp";
    refused(
        &rt,
        heap,
        &[Most(9), Lamp(5), Lamp(6), Wire(0, 1), Wire(0, 2)],
        Some(5),
        text,
    )?;
    refused(
        &rt,
        heap,
        &[Most(9), Lamp(5), Lamp(6), Wire(2, 2), Wire(0, 0)],
        Some(4),
        text,
    )?;
    let text = "a lamp wired to itself";
    refused(
        &rt,
        heap,
        &[Most(9), Lamp(5), Lamp(6), Wire(1, 1), Wire(0, 9)],
        Some(4),
        text,
    )?;
    let lines = star(heap, 17)?;
    refused(
        &rt,
        heap,
        lines.as_slice(),
        None,
        "a lamp with more than 16 neighbours",
    )?;
    let text = "lamps that do not hang together";
    refused(&rt, heap, &[Most(9), Lamp(5), Lamp(6)], None, text)?;
    let lines = [
        Most(9),
        Lamp(5),
        Lamp(6),
        Lamp(7),
        Lamp(8),
        Wire(3, 2),
        Wire(0, 1),
    ];
    refused(&rt, heap, &lines, None, text)
}

#[test]
fn texts(rt: HostRuntime) -> Result<(), Fail> {
    let heap = rt.alloc();
    let of_a_line = Refused {
        line: Some(12),
        reason: Reason::SameName,
    };
    assert_eq!(rt;
        of_a_line.to_string(heap)?.as_str(),
        "line 12: a name that another lamp has"
    );
    let of_all = Refused {
        line: None,
        reason: Reason::NoLamps,
    };
    assert_eq!(rt; of_all.to_string(heap)?.as_str(), "no lamps");
    Ok(())
}
