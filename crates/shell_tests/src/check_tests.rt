//! What `check` prints and saves.
use crate::world::{Made, NEVER, SECTORS, run_on, with_sectors};
use nvd_media::{ListChooser, Object, Stored};
use shell_reports::Status;
use std::alloc::AllocError;

/// Each row is a byte of a module's contents that is changed, or none, and what is printed then. The namespace begins with a line of module 0, and
/// ends with one of module 1. In all cases the set is saved as it was read.
#[test]
fn arenas_are_checked(rt: HostRuntime) -> Result<(), AllocError> {
    let alloc = rt.alloc();
    let mut objects = with_sectors(&rt, alloc)?;
    let first = "arena 0 Info Checksum\nbroken 1\n";
    for (module, byte, want) in [
        (0, usize::MAX, "sound\n"),
        (1, (8 << 20) - 4000, "arena 0 Backup Checksum\nbroken 1\n"),
        (0, 200, first),
        (1, (8 << 20) - 4000, first),
    ] {
        for stored in &mut objects {
            if stored.object.is(Object::Contents(module)) {
                if let Some(slot) = stored.bytes.get_mut(byte) {
                    *slot ^= 1;
                }
            }
        }
        let mut choose = ListChooser::new(Vec::new(alloc));
        let words = ["check", SECTORS];
        let Made { status, text, set } = run_on(
            &rt,
            alloc,
            &words,
            "",
            &objects,
            &mut choose,
            NEVER,
        )?;
        assert_eq!(rt; text.as_str(), want);
        assert_eq!(rt; status, Status::Ok);
        for Stored { object, bytes } in &objects {
            assert!(rt; set.bytes(*object) == Some(bytes.as_slice()));
        }
    }
    Ok(())
}
