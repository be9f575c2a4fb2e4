//! Packed texts at stated words.
use crate::fixtures::{is_packed, refused, unpacked};
use stabby_symbol::UnpackFault;
use std::test::Fail;

#[test]
fn packed_texts(rt: HostRuntime) {
    assert!(rt; is_packed(rt.alloc(), "", &[0]));
    assert!(rt; is_packed(rt.alloc(), "abcdefgh", &[8, 7523094288207667809]));
    assert!(rt; is_packed(rt.alloc(), "é", &[2, 43459]));
}

#[test]
fn tables_that_are_no_texts(rt: HostRuntime) {
    assert!(rt; refused(rt.alloc(), &[]) == Some(UnpackFault::NoLength));
    assert!(rt;
        refused(rt.alloc(), &[9, 1])
            == Some(UnpackFault::Length {
                stated: 9,
                words: 1
            })
    );
    assert!(rt; refused(rt.alloc(), &[1, 16705]) == Some(UnpackFault::Padding));
    assert!(rt; refused(rt.alloc(), &[1, 255]) == Some(UnpackFault::Utf8));
}

#[test]
fn an_unpacked_text(rt: HostRuntime) -> Result<(), Fail> {
    let Ok(text) = unpacked(rt.alloc(), &[2, 43459]) else {
        return Err("not unpacked")?;
    };
    assert!(rt; text.as_str() == "é");
    Ok(())
}
