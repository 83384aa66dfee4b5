//! Each public call once. What a list holds is known to contracts alone, so the numbers and counts are compared.
use ls_chron::Chron;
use std::alloc::Global;
use std::test::Fail;

/// Whether `start`, `append`, `note`, `share`, `meet`, `whole`, `count` and `sign` answer as they must, for one history
/// of three entries.
fn goes_on(alloc: Global) -> Result<bool, Fail> {
    let (chron, mut writer) = Chron::<u64>::start(alloc)?;
    let mut early = chron.note(&mut writer);
    let is_empty = chron.count(&mut early) == 0;
    let first = chron.append(&mut writer, &30);
    let second = chron.append(&mut writer, &40);
    let mut late = chron.note(&mut writer);
    let third = chron.append(&mut writer, &50);
    let copy = chron.share(&mut late);
    chron.meet(&mut early, copy);
    chron.whole(&mut writer, &mut late);
    let sign = late.sign();
    let count = chron.count(&mut early);
    drop(sign);
    Ok(is_empty && first == Ok(1) && second == Ok(2) && third == Ok(3) && count == 3)
}

#[test]
fn a_history_of_three_entries(rt: HostRuntime) -> Result<(), Fail> {
    assert!(rt; goes_on(rt.alloc())?);
    Ok(())
}
