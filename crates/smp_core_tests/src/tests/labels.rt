use smp_labels::{
    Change, Entry, LabelMap, LabelWords, MOST_COUNT, Place, SiteKind, is_lawful, plan,
};
use smp_mask::{Edge, SmpError};
use std::process::Abort;
use std::test::Fail;

const OFF: Entry = Entry {
    key: 0,
    branch: false,
};

const ON: Entry = Entry {
    key: 0,
    branch: true,
};

/// The words of one key of this count, and of its two sites, declared off and on, that are of these kinds.
fn two_sites(count: u64, kinds: [u64; 2]) -> LabelWords {
    let [first, second] = kinds;
    LabelWords {
        keys: [count, 0, 0, 0],
        entries: [1, 2, 0, 0, 0, 0, 0, 0, 0, 0, 0, 0, 0, 0, 0, 0],
        sites: [first, second, 0, 0, 0, 0, 0, 0, 0, 0, 0, 0, 0, 0, 0, 0],
    }
}

// Two sites of one key, as `static_branch_unlikely` and `static_branch_likely` declare them.
#[test]
fn one_key_with_two_sites(rt: HostRuntime) -> Result<(), Fail> {
    let map = LabelMap::new(&[OFF, ON], 1)?;
    assert_eq!(rt; (map.keys(), map.sites()), (1, 2));
    assert_eq!(rt; map.words(), two_sites(0, [0, 1]));
    let kinds = [0, 1].map(|word| SiteKind::from_word(word));
    assert_eq!(rt; kinds, [SiteKind::Nop, SiteKind::Jmp]);
    Ok(())
}

// The key word alone, then the first site: the words are lawful again only with both sites. Then words that no map
// has: a count above the highest, an entry after a gap, a key that no table has.
#[test]
fn lawful_words(rt: HostRuntime) -> Result<(), Fail> {
    let off = two_sites(0, [0, 1]);
    let mut gap = off;
    gap.entries[3] = 1;
    let mut stranger = off;
    stranger.entries[1] = 9;
    let cases = [
        (off, true),
        (two_sites(1, [0, 1]), false),
        (two_sites(1, [1, 1]), false),
        (two_sites(1, [1, 0]), true),
        (two_sites(65_535, [1, 0]), true),
        (two_sites(65_536, [1, 0]), false),
        (gap, false),
        (stranger, false),
    ];
    for (words, lawful) in cases {
        assert_eq!(rt; is_lawful(&words), lawful);
    }
    Ok(())
}

/// A change of a key, and the words that it writes, in order, or how it is refused.
type Planned<'a> = (u32, Change, Result<&'a [(Place, u64)], SmpError>);

/// Each of these changes, from these words, is planned so.
fn plans<R: Abort>(rt: &R, words: LabelWords, cases: &[Planned]) -> Result<(), Fail> {
    assert!(rt; is_lawful(&words));
    for (key, change, wanted) in cases {
        match plan(&words, *key, *change) {
            Ok(planned) => assert_eq!(rt; Ok(planned.as_slice()), *wanted),
            Err(error) => assert_eq!(rt; Err(error), *wanted),
        }
    }
    Ok(())
}

// Sites change where the count leaves 0 and comes to 0 alone.
#[test]
fn changes_of_a_key(rt: HostRuntime) -> Result<(), Fail> {
    let on: &[(Place, u64)] = &[(Place::Key(0), 1), (Place::Site(0), 1), (Place::Site(1), 0)];
    let off: &[(Place, u64)] = &[(Place::Key(0), 0), (Place::Site(0), 0), (Place::Site(1), 1)];
    let from_zero: [Planned; 6] = [
        (0, Change::On, Ok(on)),
        (0, Change::Off, Ok(&[])),
        (0, Change::Up, Ok(on)),
        (0, Change::Down, Err(SmpError::KeyRange(Edge::Zero))),
        (4, Change::On, Err(SmpError::BadArgument)),
        (4, Change::Up, Err(SmpError::BadArgument)),
    ];
    plans(&rt, two_sites(0, [0, 1]), &from_zero)?;
    let from_one: [Planned; 4] = [
        (0, Change::On, Ok(&[])),
        (0, Change::Off, Ok(off)),
        (0, Change::Up, Ok(&[(Place::Key(0), 2)])),
        (0, Change::Down, Ok(off)),
    ];
    plans(&rt, two_sites(1, [1, 0]), &from_one)?;
    let from_most: [Planned; 3] = [
        (0, Change::Up, Err(SmpError::KeyRange(Edge::Full))),
        (0, Change::Down, Ok(&[(Place::Key(0), 65_534)])),
        (0, Change::Off, Ok(off)),
    ];
    plans(&rt, two_sites(MOST_COUNT, [1, 0]), &from_most)
}

// Site i is of key i % 4, and the sites from 8 on are declared on.
fn sixteen() -> [Entry; 16] {
    let mut entries = [OFF; 16];
    for (i, entry) in entries.iter_mut().enumerate() {
        *entry = Entry {
            key: (i % 4) as u32,
            branch: i >= 8,
        };
    }
    entries
}

#[test]
fn four_keys_with_sixteen_sites(rt: HostRuntime) -> Result<(), Fail> {
    let map = LabelMap::new(&sixteen(), 4)?;
    assert_eq!(rt; (map.keys(), map.sites()), (4, 16));
    let off = map.words();
    assert_eq!(rt;
        off.entries,
        [1, 3, 5, 7, 1, 3, 5, 7, 2, 4, 6, 8, 2, 4, 6, 8]
    );
    assert_eq!(rt; off.sites, [0, 0, 0, 0, 0, 0, 0, 0, 1, 1, 1, 1, 1, 1, 1, 1]);
    let third = [
        (Place::Key(3), 1),
        (Place::Site(3), 1),
        (Place::Site(7), 1),
        (Place::Site(11), 0),
        (Place::Site(15), 0),
    ];
    plans(&rt, off, &[(3, Change::On, Ok(&third))])
}

#[test]
fn refusals(rt: HostRuntime) -> Result<(), Fail> {
    let stranger = Entry {
        key: 2,
        branch: true,
    };
    let tables: [(&[Entry], u32); 4] = [
        (&[OFF; 17], 1),
        (&[OFF], 5),
        (&[OFF, stranger], 2),
        (&[OFF], 0),
    ];
    for (entries, keys) in tables {
        assert_eq!(rt; LabelMap::new(entries, keys), Err(SmpError::BadArgument));
    }
    assert_eq!(rt; LabelMap::new(&[], 0)?.sites(), 0);
    Ok(())
}
