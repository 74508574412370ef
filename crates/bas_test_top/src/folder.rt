use bas_base::FileName;
use bas_system::Folder;
use bas_world::{Store, StoreFail};
use std::test::Fail;

#[test]
fn a_folder_holds_files(rt: HostRuntime) -> Result<(), Fail> {
    let name = FileName::of(b"bas_folder_test.tmp")?;
    let mut folder = Folder::new(&rt);
    assert!(rt; matches!(folder.size(name), Ok(None)));
    let mut buf = *b"........";
    assert!(rt; matches!(folder.read_at(name, 0, &mut buf), Err(StoreFail::Failed)));
    assert!(rt; matches!(folder.write_at(name, 0, b"a"), Err(StoreFail::Failed)));
    assert!(rt; matches!(folder.size(name), Ok(None)));
    assert!(rt; folder.create(name).is_ok());
    assert!(rt; folder.write_at(name, 3, b"def").is_ok());
    assert!(rt; folder.write_at(name, 1, b"b").is_ok());
    assert!(rt; folder.cut(name, 5).is_ok());
    assert!(rt; matches!(folder.size(name), Ok(Some(5))));
    assert!(rt; matches!(folder.read_at(name, 1, &mut buf), Ok(4)));
    assert_eq!(rt; buf, *b"b\0de....");
    assert!(rt; matches!(folder.read_at(name, 5, &mut buf), Ok(0)));
    assert!(rt; folder.remove(name).is_ok());
    assert!(rt; matches!(folder.remove(name), Err(StoreFail::Failed)));
    assert!(rt; matches!(folder.size(name), Ok(None)));
    Ok(())
}
