// Directories that streams are received into.
use crate::rows::{
    PartialFields, push_dataset, push_head, push_numbers, push_partial, push_snapshot, read,
};
use std::alloc::{AllocError, Global};
use std::test::Fail;
use zst_bytes::push_word;
use zst_dir::Dir;

// Spells a kept partial state of this target: of the guid 99 from 16, at object 5 and offset 1024,
// with redaction guids of both kinds.
fn push_kept(out: &mut Vec<u8>, target: &str, base: &str) -> Result<(), AllocError> {
    let fields = PartialFields {
        target,
        component: "n",
        // REDACTED is bit 21, SA_SPILL bit 2.
        numbers: [1, 2, 12, 0x20_0004, 1_700_000_000, 99, 16],
        name: b"x@n",
        redact: &[7, 9],
        from_redact: &[11],
        base,
        point: [5, 1024],
    };
    push_partial(out, &fields)
}

// The snapshot of `d` is redacted, and `p` is a partial state alone, over the snapshot of `a`.
pub(super) fn receivers(alloc: Global) -> Result<Dir, Fail> {
    let mut out = Vec::new(alloc);
    push_word(&mut out, 2)?;
    push_dataset(&mut out, ("a", ""), &[("q", 16, 2)], (&[], &[]))?;
    push_dataset(&mut out, ("d", ""), &[("x", 65, 6)], (&[], &[7, 9]))?;
    push_numbers(&mut out, &[0, 1])?;
    push_kept(&mut out, "p", "a@q")?;
    read(alloc, out.as_slice())
}

// So many datasets, of which the first has so many snapshots, and so many partial states of
// absent datasets.
pub(super) fn crowd(
    alloc: Global,
    datasets: u32,
    snapshots: u32,
    partials: u32,
) -> Result<Dir, Fail> {
    let mut out = Vec::new(alloc);
    push_datasets(alloc, &mut out, datasets, snapshots)?;
    push_word(&mut out, 0)?;
    push_word(&mut out, u64::from(partials))?;
    for number in 0..partials {
        let target = format!(in alloc; "p{}", 1000 + u64::from(number))?;
        push_kept(&mut out, target.as_str(), "")?;
    }
    read(alloc, out.as_slice())
}

// So many datasets, of which the first has so many snapshots.
fn push_datasets(
    alloc: Global,
    out: &mut Vec<u8>,
    datasets: u32,
    snapshots: u32,
) -> Result<(), AllocError> {
    push_word(out, u64::from(datasets))?;
    for number in 0..datasets {
        let name = format!(in alloc; "d{}", 1000 + u64::from(number))?;
        let count = if number == 0 { snapshots } else { 0 };
        push_head(out, (name.as_str(), ""), &[], u64::from(count))?;
        push_made(alloc, out, count)?;
    }
    Ok(())
}

// So many snapshots.
fn push_made(alloc: Global, out: &mut Vec<u8>, snapshots: u32) -> Result<(), AllocError> {
    for number in 0..snapshots {
        let component = format!(in alloc; "s{number}")?;
        let number = 1 + u64::from(number);
        push_snapshot(
            out,
            component.as_str(),
            [number, 1_700_000_000, number],
            &[],
        )?;
    }
    Ok(())
}
