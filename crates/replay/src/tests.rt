// Inputs and what is printed of them.
use crate::listing::replay;
use std::alloc::Global;
use std::process::Abort;
use std::test::Fail;

// What the program prints of an input: the listing, or the one line that says why there is none.
fn printed(heap: Global, input: &str) -> Result<String, Fail> {
    match replay(heap, input) {
        Ok(listing) => Ok(listing),
        Err(failure) => Ok(failure.to_string(heap)?),
    }
}

// Checks what the program prints of an input.
fn prints(rt: &impl Abort, heap: Global, input: &str, output: &str) -> Result<(), Fail> {
    assert_eq!(rt; printed(heap, input)?.as_str(), output);
    Ok(())
}

#[test]
fn lines_that_cannot_be_read(rt: HostRuntime) -> Result<(), Fail> {
    let heap = rt.alloc();
    prints(&rt, heap, "", "line 1: missing")?;
    prints(
        &rt,
        heap,
        "15000\nsettle\n",
        "line 1: no capacity and tolerance",
    )?;
    prints(
        &rt,
        heap,
        "15000 x\nsettle\n",
        "line 1: no capacity and tolerance",
    )?;
    prints(&rt, heap, "15000 5\n", "line 2: missing")?;
    prints(&rt, heap, "15000 5\ntare\n", "line 2: no such order")?;
    prints(&rt, heap, "15000 5\npreset-tare x\n", "line 2: no number")?;
    prints(&rt, heap, "15000 5\nsettle\n1\n2x\n", "line 4: no number")?;
    prints(&rt, heap, "15000 5\nsettle\n1\n\n2\n", "line 4: no number")
}

#[test]
fn settings_and_orders_that_are_declined(rt: HostRuntime) -> Result<(), Fail> {
    let heap = rt.alloc();
    let capacity = "line 1: declined with 45, the capacity is not 1 to 4000000";
    let tolerance = "line 1: declined with 46, the tolerance is not 0 to 1000";
    let preset = "line 2: declined with 23, the preset is not 0 to the capacity";
    prints(&rt, heap, "0 5\nsettle\n1\n", capacity)?;
    prints(&rt, heap, "4000001 1001\nsettle\n1\n", capacity)?;
    prints(&rt, heap, "15000 1001\npreset-tare -1\n1\n", tolerance)?;
    prints(&rt, heap, "15000 5\npreset-tare -1\n1\n", preset)?;
    prints(&rt, heap, "15000 5\npreset-tare 15001\n1\n", preset)?;
    assert_eq!(rt;
        printed(heap, "0 5\nsettle\nx\n")?.as_str(),
        "line 3: no number",
        "what cannot be read comes first"
    );
    Ok(())
}

#[test]
fn ends_with_the_order_or_the_samples(rt: HostRuntime) -> Result<(), Fail> {
    let heap = rt.alloc();
    prints(
        &rt,
        heap,
        "15000 5\npreset-tare 15000\n1\n2\n",
        "1 1 moving done\nzero 0 tare 15000\n",
    )?;
    prints(
        &rt,
        heap,
        "15000 5\nzero-now\n301",
        "1 301 moving not possible\nzero 0 tare 0\n",
    )?;
    prints(
        &rt,
        heap,
        "15000 5\nzero-now\n-300\n7\n",
        "1 -300 moving done\nzero -300 tare 0\n",
    )?;
    prints(
        &rt,
        heap,
        "15000 5\ntare-now\n-4000001\n",
        "1 0 fault waiting\nzero 0 tare 0\n",
    )?;
    assert_eq!(rt;
        printed(heap, "15000 5\nsettle\n")?.as_str(),
        "zero 0 tare 0\n",
        "no samples"
    );
    Ok(())
}
