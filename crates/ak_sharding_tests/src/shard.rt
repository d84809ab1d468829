use ak_address::Text;
use ak_settings::may_be_types;
use ak_shard_id::{Report, entity_ok, shard_in, shard_of};
use std::alloc::{AllocError, Global};
use std::test::Fail;

#[test]
fn entities_have_shards(rt: HostRuntime) -> Result<(), Fail> {
    for (entity, shards, shard) in [
        (b"cart".as_slice(), 10, 6),
        (b"zzzzzz".as_slice(), 10, 4),
        (b"cart".as_slice(), 1000, 176),
        (b"zzzzzz".as_slice(), 1000, 664),
        (b"a".as_slice(), 10, 7),
        (b"".as_slice(), 10, 0),
        (b"cart".as_slice(), 1, 0),
    ] {
        assert_eq!(rt; shard_of(entity, shards), shard);
    }
    Ok(())
}

fn order_and_user(alloc: Global) -> Result<Vec<Text>, AllocError> {
    let mut types = Vec::new(alloc);
    for name in [b"order".as_slice(), b"user".as_slice()] {
        types.push(Text::from_bytes(alloc, name)?)?;
    }
    Ok(types)
}

// A text, whether it is an entity where there are no types, and whether it is one where these are order and user.
static TEXTS: [(&[u8], bool, bool); 21] = [
    (b"cart", true, false),
    (b"order/cart", true, true),
    (b"user/cart", true, true),
    (b"user//", true, true),
    (b"user/order/cart", true, true),
    (b"user/!~", true, true),
    (b"user", true, false),
    (b"user/", true, false),
    (b"users/cart", true, false),
    (b"use/cart", true, false),
    (b"User/cart", true, false),
    (b"/cart", true, false),
    (b"/user/cart", true, false),
    (b"", false, false),
    (b"user/a cart", false, false),
    (b"user/cart\x7f", false, false),
    (b"user/\xc3\xa9", false, false),
    (
        b"eeeeeeeeeeeeeeeeeeeeeeeeeeeeeeeeeeeeeeeeeeeeeeeeeeeeeeeeeeeeeeee",
        true,
        false,
    ),
    (
        b"eeeeeeeeeeeeeeeeeeeeeeeeeeeeeeeeeeeeeeeeeeeeeeeeeeeeeeeeeeeeeeeee",
        false,
        false,
    ),
    (
        b"order/eeeeeeeeeeeeeeeeeeeeeeeeeeeeeeeeeeeeeeeeeeeeeeeeeeeeeeeeeeeeeeee",
        false,
        true,
    ),
    (
        b"order/eeeeeeeeeeeeeeeeeeeeeeeeeeeeeeeeeeeeeeeeeeeeeeeeeeeeeeeeeeeeeeeee",
        false,
        false,
    ),
];

#[test]
fn an_entity_without_a_type_is_an_id(rt: HostRuntime) {
    for (index, (text, wanted, _)) in TEXTS.iter().enumerate() {
        assert!(rt; entity_ok(&[], text) == *wanted, "{index}");
    }
}

#[test]
fn an_entity_with_a_type_has_an_id_after_it(rt: HostRuntime) -> Result<(), Fail> {
    let types = order_and_user(rt.alloc())?;
    for (index, (text, _, wanted)) in TEXTS.iter().enumerate() {
        assert!(rt; entity_ok(&types, text) == *wanted, "{index}");
    }
    Ok(())
}

// The shard of an entity, where each type has ten; none where these can be no types.
fn shard_among(types: &[Text], entity: &[u8]) -> Option<u32> {
    if may_be_types(10, types) {
        return Some(shard_in(types, 10, entity));
    }
    None
}

// An entity, and its shard: where there are no types, and where these are order and user.
static SHARDS: [(&[u8], u32, u32); 6] = [
    (b"order/cart", 7, 6),
    (b"user/cart", 8, 16),
    (b"order/17", 1, 4),
    (b"user/17", 2, 14),
    (b"order/a", 0, 7),
    (b"user/order/17", 9, 11),
];

#[test]
fn without_types_a_slash_is_a_byte_of_the_id(rt: HostRuntime) {
    for (index, (entity, wanted, _)) in SHARDS.iter().enumerate() {
        assert!(rt; shard_among(&[], entity) == Some(*wanted), "{index}");
    }
}

#[test]
fn each_type_has_shards_of_its_own(rt: HostRuntime) -> Result<(), Fail> {
    let types = order_and_user(rt.alloc())?;
    for (index, (entity, _, wanted)) in SHARDS.iter().enumerate() {
        assert!(rt; shard_among(&types, entity) == Some(*wanted), "{index}");
    }
    Ok(())
}

// The least number that 32 bits hold with a sign: it has no positive counterpart there.
#[test]
fn the_least_hash_has_a_shard(rt: HostRuntime) -> Result<(), Fail> {
    assert_eq!(rt; shard_of(b"polygenelubricants", 1000), 648);
    assert_eq!(rt; shard_of(b"polygenelubricants", 7), 2);
    Ok(())
}

#[test]
fn reports_are_compared_by_all_they_say(rt: HostRuntime) -> Result<(), Fail> {
    let report = Report {
        shard: 3,
        number: 2,
        hosted: true,
    };
    let copy = report;
    assert_eq!(rt; copy, report);
    for other in [
        Report { shard: 4, ..report },
        Report {
            number: 3,
            ..report
        },
        Report {
            hosted: false,
            ..report
        },
    ] {
        assert!(rt; other != report);
    }
    Ok(())
}
