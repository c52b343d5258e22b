use ax_outside::{Endless, HostShelf, MemShelf, ReadFault, Shelf, read_all};
use std::alloc::AllocError;
use std::test::Fail;

// Whether the bytes of a file behind the first few are read so, or the read fails.
fn is_read(shelf: &mut MemShelf, name: &str, from: u8, want: Option<&str>) -> bool {
    let mut into = [0; 8];
    match (shelf.read(name, u64::from(from), &mut into), want) {
        (Ok(count), Some(text)) => &into[..count] == text.as_bytes(),
        (Err(_), None) => true,
        _ => false,
    }
}

fn is_kept(shelf: &MemShelf, name: &str, want: Option<&str>) -> bool {
    match (shelf.bytes(name), want) {
        (Some(bytes), Some(text)) => bytes == text.as_bytes(),
        (None, None) => true,
        _ => false,
    }
}

#[test]
fn memory_fails_where_it_is_told_to(rt: HostRuntime) -> Result<(), AllocError> {
    let mut shelf = MemShelf::new(rt.alloc());
    shelf.keep("s", b"abc")?;
    shelf.room(4, 12)?;
    shelf.fail(2)?;
    shelf.tear(4, 9)?;
    shelf.tear(4, 2)?;
    shelf.tear(8, 5)?;
    // one call each, with what it is to answer
    assert!(rt; is_read(&mut shelf, "s", 1, Some("bc")));
    assert!(rt; is_read(&mut shelf, "s", 0, None));
    assert!(rt; shelf.put("c", b"hello").is_ok());
    assert!(rt; shelf.put("o", b"wide").is_err());
    assert!(rt; is_read(&mut shelf, "missing", 0, None));
    assert!(rt; shelf.print(b"abcd").is_err());
    assert!(rt; shelf.print(b"ab").is_ok());
    assert!(rt; shelf.print(b"z").is_err());
    assert!(rt; shelf.put("", b"").is_err());
    assert!(rt; is_kept(&shelf, "s", Some("abc")));
    assert!(rt; is_kept(&shelf, "c", Some("hello")));
    assert!(rt; is_kept(&shelf, "o", Some("wi")));
    assert!(rt; is_kept(&shelf, "", None));
    assert!(rt; shelf.printed() == b"abz".as_slice());
    assert!(rt; shelf.faults() == 6);
    Ok(())
}

#[test]
fn files_are_read_whole(rt: HostRuntime) -> Result<(), Fail> {
    let alloc = rt.alloc();
    let mut inner = MemShelf::new(alloc);
    let long = vec![in alloc; 7u8; 5000]?;
    inner.keep("long", &long)?;
    let short = read_all(alloc, &mut inner, "long", 4999);
    assert!(rt; matches!(short, Err(ReadFault::TooLong)));
    let whole = read_all(alloc, &mut inner, "long", 5000)?;
    assert!(rt; whole.as_slice() == long.as_slice());
    let name = String::from_str(alloc, "endless")?;
    let mut shelf = Endless { inner, name };
    let endless = read_all(alloc, &mut shelf, "endless", 10_000);
    assert!(rt; matches!(endless, Err(ReadFault::TooLong)));
    let none = read_all(alloc, &mut shelf, "none", 10_000);
    assert!(rt; matches!(none, Err(ReadFault::Failed)));
    Ok(())
}

#[test]
fn the_system_keeps_what_is_put(rt: HostRuntime) -> Result<(), Fail> {
    let alloc = rt.alloc();
    let name = "ax_outside_shelf_test";
    let mut shelf = HostShelf::new(rt.clone()?);
    assert!(rt; shelf.put(name, b"first, longer").is_ok());
    assert!(rt; shelf.put(name, b"second").is_ok());
    let whole = read_all(alloc, &mut shelf, name, 100)?;
    assert!(rt; whole.as_slice() == b"second".as_slice());
    assert!(rt; shelf.print(b"printed\n").is_ok());
    std::fs::remove_file(&rt, name)?;
    let gone = read_all(alloc, &mut shelf, name, 100);
    assert!(rt; matches!(gone, Err(ReadFault::Failed)));
    Ok(())
}
