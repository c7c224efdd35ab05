//! A file of the system, written and read back.

use std::fs::{File, remove_file};
use std::test::Fail;
use vata_outside::{Failed, Files, RealErr, RealFiles, RealOut, write_all_of};

#[test]
fn a_real_file_is_written_and_read_back(rt: HostRuntime) -> Result<(), Fail> {
    let text = b"Ops a:0\n".as_slice();
    let mut out = RealOut::new(File::create(&rt, "all.tmb")?);
    assert_eq!(rt; write_all_of(&mut out, text), Ok(()));
    drop(out);
    let mut files = RealFiles::new(&rt);
    let mut buf = [0; 16];
    assert_eq!(rt; files.read(&mut buf), Ok(0));
    assert_eq!(rt; files.select("absent"), Err(Failed));
    assert_eq!(rt; files.select("all.tmb"), Ok(()));
    assert_eq!(rt; files.read(&mut buf), Ok(8));
    assert!(rt; buf.starts_with(text));
    assert_eq!(rt; files.read(&mut buf), Ok(0));
    drop(files);
    remove_file(&rt, "all.tmb")?;
    let mut room = [0; 3];
    let mut err = RealErr::new(room.as_mut_slice());
    assert_eq!(rt; write_all_of(&mut err, text), Err(Failed));
    drop(err);
    assert_eq!(rt; room, [79, 112, 115]);
    Ok(())
}
