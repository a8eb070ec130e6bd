//! A log, which has no size at run time. The test checks that there is one permit to append for each entry.
use crate::fixtures::{create, new_volume};
use std::test::Fail;
use vol_layout::Edition;
use vol_views::Ledger;
use vol_volume::{Done, Record};

#[test]
fn there_is_one_permit_for_each_entry(rt: HostRuntime) -> Result<(), Fail> {
    let alloc = rt.alloc();
    let volume = new_volume(&rt, alloc, Edition::V7);
    let mut ledger = Ledger::open(&volume).ok_or("a log")?;
    let entry = Record {
        call: create(&rt, alloc, b"/f"),
        done: Done::Made(3),
    };
    let permit = ledger.ready().ok_or("a permit")?;
    assert!(rt; ledger.ready().is_none());
    ledger.append(permit, &entry);
    let permit = ledger.ready().ok_or("a second permit")?;
    ledger.append(permit, &entry);
    assert!(rt; ledger.ready().is_some());
    Ok(())
}
