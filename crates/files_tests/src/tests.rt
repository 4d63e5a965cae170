use nvd_files::{DirSink, DirSource};
use nvd_media::{Failed, ImageSink, ImageSource, Object};
use std::os::unix::fs::symlink;
use std::{fs, io};

/// Two blocks of zero bytes, five bytes, a block of zero bytes, and seven zero bytes.
const ZEROS: [u8; 8192] = [0; 8192];

const TAIL: [u8; 4103] = [0; 4103];

const CONTENTS: Object = Object::Contents(3);

/// A set is written and read back, in pieces that alternate between objects.
#[test]
fn a_set_is_read_as_it_was_written(rt: HostRuntime) {
    let mut sink = DirSink::new(&rt, "set", "none");
    // the directory of the source must exist
    assert_eq!(rt; sink.write(Object::Nfit, 0, b"table"), Err(Failed));
    let mut sink = DirSink::new(&rt, "set", "/usr");
    assert_eq!(rt; sink.write(Object::Nfit, 0, b"table"), Ok(()));
    assert_eq!(rt; sink.write(CONTENTS, 0, &ZEROS), Ok(()));
    assert_eq!(rt; sink.write(CONTENTS, 8192, b"bytes"), Ok(()));
    assert_eq!(rt; sink.write(CONTENTS, 8197, &TAIL), Ok(()));
    assert_eq!(rt; sink.write(Object::BadRanges(3), 0, b""), Ok(()));
    assert_eq!(rt; sink.write(Object::Nfit, 5, b" and more"), Ok(()));
    let mut source = DirSource::new(&rt, "set");
    assert_eq!(rt; source.length(Object::Mark), Ok(None));
    assert_eq!(rt; sink.finish(), Ok(()));
    let mut source = DirSource::new(&rt, "set");
    for (object, length) in [
        (Object::Mark, Some(0)),
        (Object::Nfit, Some(14)),
        (CONTENTS, Some(12300)),
        (Object::BadRanges(3), Some(0)),
        (Object::Labels(3), None),
    ] {
        assert_eq!(rt; source.length(object), Ok(length), "{object:?}");
    }
    let mut room = [1u8; 8];
    for (object, at, bytes) in [
        (Object::Nfit, 5, b" and mor"),
        (CONTENTS, 8189, b"\0\0\0bytes"),
        (Object::Nfit, 0, b"table an"),
        (CONTENTS, 12292, b"\0\0\0\0\0\0\0\0"),
    ] {
        assert_eq!(rt;
            source.read(object, at, &mut room),
            Ok(()),
            "{object:?} {at}"
        );
        assert_eq!(rt; &room, bytes);
    }
}

/// Files that aren't objects, and reads past an end.
#[test]
fn what_is_no_object_is_refused(rt: HostRuntime) -> io::Result<()> {
    fs::create_dir(&rt, "odd")?;
    fs::create_dir(&rt, "odd/nfit.bin")?;
    symlink(&rt, "nothing", "odd/labels-0.bin")?;
    symlink(&rt, "/dev/zero", "odd/labels-1.bin")?;
    fs::write(&rt, "odd/contents-0.bin", "short")?;
    let mut source = DirSource::new(&rt, "odd");
    let mut room = [1u8; 6];
    for object in [Object::Nfit, Object::Labels(0), Object::Labels(1)] {
        assert_eq!(rt; source.length(object), Err(Failed), "{object:?}");
        assert_eq!(rt;
            source.read(object, 0, &mut room),
            Err(Failed),
            "{object:?}"
        );
    }
    let contents = Object::Contents(0);
    assert_eq!(rt; source.length(contents), Ok(Some(5)));
    assert_eq!(rt; source.read(contents, 0, &mut room), Err(Failed));
    assert_eq!(rt; source.read(contents, 0, &mut room[..5]), Ok(()));
    fs::write(&rt, "odd/contents-0.bin", "longer than before")?;
    assert_eq!(rt; source.read(contents, 0, &mut room[..5]), Err(Failed));
    assert_eq!(rt; source.length(contents), Err(Failed));
    assert_eq!(rt; source.length(Object::Contents(1)), Ok(None));
    Ok(())
}

/// Directories that are refused.
#[test]
fn where_no_set_is_made(rt: HostRuntime) -> io::Result<()> {
    fs::create_dir_all(&rt, "around/below")?;
    symlink(&rt, "around/below", "link")?;
    for (directory, source) in [
        ("around", "/usr"),
        ("-", "/usr"),
        ("none/new", "/usr"),
        ("around/new", "around"),
        ("around/below/new", "around"),
        ("link/new", "around"),
        ("new", "."),
    ] {
        let mut sink = DirSink::new(&rt, directory, source);
        assert_eq!(rt;
            sink.write(Object::Nfit, 0, b"table"),
            Err(Failed),
            "{directory}"
        );
        assert_eq!(rt; sink.finish(), Err(Failed), "{directory}");
    }
    for path in ["around/new", "around/below/new", "around/complete", "new"] {
        assert!(rt; !fs::exists(&rt, path)?, "{path}");
    }
    Ok(())
}

/// The directory is moved, and another one stands in its place: nothing changes there, and no mark
/// is set.
#[test]
fn another_directory_is_left_alone(rt: HostRuntime) -> io::Result<()> {
    for writes in [true, false] {
        let mut sink = DirSink::new(&rt, "mine", "/usr");
        assert_eq!(rt; sink.write(Object::Nfit, 0, b"table"), Ok(()));
        fs::rename(&rt, "mine", "moved")?;
        fs::create_dir(&rt, "mine")?;
        fs::write(&rt, "mine/labels-0.bin", "theirs")?;
        if writes {
            assert_eq!(rt; sink.write(Object::Labels(0), 0, b"ours"), Err(Failed));
        }
        assert_eq!(rt; sink.finish(), Err(Failed));
        let mut there = DirSource::new(&rt, "mine");
        for (object, length) in [
            (Object::Labels(0), Some(6)),
            (Object::Nfit, None),
            (Object::Mark, None),
        ] {
            assert_eq!(rt; there.length(object), Ok(length), "{object:?}");
        }
        fs::remove_file(&rt, "mine/labels-0.bin")?;
        fs::remove_dir(&rt, "mine")?;
        fs::remove_file(&rt, "moved/nfit.bin")?;
        fs::remove_dir(&rt, "moved")?;
    }
    Ok(())
}

/// A file that another one made in the directory isn't written to.
#[test]
fn a_file_of_another_is_left_alone(rt: HostRuntime) -> io::Result<()> {
    let mut sink = DirSink::new(&rt, "shared", "/usr");
    assert_eq!(rt; sink.write(Object::Nfit, 0, b"table"), Ok(()));
    fs::write(&rt, "shared/labels-0.bin", "theirs")?;
    assert_eq!(rt; sink.write(Object::Labels(0), 0, b"ours"), Err(Failed));
    let mut there = DirSource::new(&rt, "shared");
    assert_eq!(rt; there.length(Object::Labels(0)), Ok(Some(6)));
    Ok(())
}
