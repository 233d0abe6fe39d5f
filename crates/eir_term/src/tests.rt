use super::*;
use std::test::Fail;

#[test]
fn plain_data(rt: HostRuntime) -> Result<(), Fail> {
    let alloc = rt.alloc();
    for (value, constant, fixed, null) in [
        (Val::Const(7), true, false, false),
        (Val::Fixed(7), false, true, false),
        (Val::Null(7), false, false, true),
    ] {
        assert_eq!(rt; value.is_const(), constant, "{value:?}");
        assert_eq!(rt; value.is_fixed(), fixed, "{value:?}");
        assert_eq!(rt; value.is_null(), null, "{value:?}");
        let fact = Fact::make(alloc, 3, &[value, Val::Const(1)])?;
        assert_eq!(rt; fact.args.as_slice().len(), 2);
        assert!(rt; fact == Fact::make(alloc, 3, &[value, Val::Const(1)])?);
        assert!(rt; fact != Fact::make(alloc, 4, &[value, Val::Const(1)])?);
        assert!(rt; fact != Fact::make(alloc, 3, &[value])?);
    }
    let atom = Atom::make(alloc, 5, &[Term::Var(1), Term::Fixed(2)])?;
    assert!(rt; atom.args.as_slice() == [Term::Var(1), Term::Fixed(2)].as_slice());
    let again = atom.copy(alloc)?;
    assert_eq!(rt; again.rel, 5);
    assert!(rt; again.args.as_slice() == [Term::Var(1), Term::Fixed(2)].as_slice());
    let mut text = Text::make(alloc, b"Emp")?;
    text.push_all(b"(ann,hr)")?;
    assert!(rt; text.bytes() == b"Emp(ann,hr)".as_slice());
    text.push_all(b" -> exists y1 . Works(ann,y1)")?;
    assert!(rt; text.bytes() == b"Emp(ann,hr) -> exists y1 . Works(ann,y1)".as_slice());
    text.clear();
    assert!(rt; text.bytes().is_empty());
    Ok(())
}

#[test]
fn maps(rt: HostRuntime) -> Result<(), Fail> {
    let alloc = rt.alloc();
    let mut map = Map::new(alloc);
    map.put(Val::Const(0), Val::Const(4))?;
    map.put(Val::Null(0), Val::Const(5))?;
    let before = map.copy(alloc)?;
    map.set(Val::Const(0), Val::Null(6));
    for (value, old, new) in [
        (Val::Const(0), Some(Val::Const(4)), Some(Val::Null(6))),
        (Val::Null(0), Some(Val::Const(5)), Some(Val::Const(5))),
        (Val::Fixed(0), None, None),
    ] {
        assert_eq!(rt; before.get(value), old, "{value:?}");
        assert_eq!(rt; map.get(value), new, "{value:?}");
    }
    assert_eq!(rt; map.len(), 2);
    assert_eq!(rt; map.pair(1), Some((Val::Null(0), Val::Const(5))));
    assert_eq!(rt; map.pair(2), None);
    assert_eq!(rt; map.image_at(1), Val::Const(5));
    map.set_at(1, Val::Const(8));
    assert_eq!(rt; map.image_at(0), Val::Null(6));
    assert_eq!(rt; map.image_at(1), Val::Const(8));
    assert_eq!(rt; map.pair(1), Some((Val::Null(0), Val::Const(8))));
    Ok(())
}
