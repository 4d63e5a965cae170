//! What `init` saves.
use crate::world::{Made, NEVER, pair, run_on};
use nvd_media::{ListChooser, Object, Stored};
use shell_reports::Status;
use std::alloc::AllocError;

/// A fresh area has the published checksum. All else is as it was read, contents of more than a piece and a list of bad
/// ranges too.
#[test]
fn an_area_is_initialised(rt: HostRuntime) -> Result<(), AllocError> {
    let alloc = rt.alloc();
    let mut objects = pair(alloc)?;
    objects.push(Stored {
        object: Object::BadRanges(0),
        bytes: vec![in alloc; 7; 16]?,
    })?;
    for stored in &mut objects {
        if stored.object.is(Object::Contents(1)) {
            stored.bytes = vec![in alloc; 0x5a; (256 << 10) + 4096]?;
        }
    }
    let mut choose = ListChooser::new(Vec::new(alloc));
    let Made { status, text, set } = run_on(
        &rt,
        alloc,
        &["init", "0"],
        "",
        &objects,
        &mut choose,
        NEVER,
    )?;
    assert_eq!(rt; text.as_str(), "ok\n");
    assert_eq!(rt; status, Status::Ok);
    let area = set.bytes(Object::Labels(0)).unwrap_or(&[]);
    assert_eq!(rt;
        area.get(64..72),
        Some(b"\x33\x3a\x32\xd8\xa7\x83\x93\x27".as_slice())
    );
    for stored in &objects {
        if !stored.object.is(Object::Labels(0)) {
            assert!(rt; set.bytes(stored.object) == Some(stored.bytes.as_slice()));
        }
    }
    assert!(rt; set.bytes(Object::BadRanges(1)).is_none());
    Ok(())
}
