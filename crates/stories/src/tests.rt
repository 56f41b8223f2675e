// What a branch does with the library, one story a test.
ghost use Rattle.std.specs.Prelude.{◌≡◌};

use crate::refusal::refusal;
use decision::{busy_window, earliest_deadline, fixed_priority};
use fault::Layer;
use report::report;
use std::test::Fail;
use supply::{Grant, PeriodicServer, Supply};
use table::Table;
use text::{Triple, read_table, write_table};

fn triple(first: u32, second: u32, third: u32) -> Triple
    ensures { (result.first ≡ first) × (result.second ≡ second) × (result.third ≡ third) }
{
    Triple {
        first,
        second,
        third,
    }
}

// A branch writes its five steps as a text and gets a response for each.
#[test]
fn a_fixing_gets_its_responses(rt: HostRuntime) -> Result<(), Fail> {
    let steps = [
        triple(1, 4, 10),
        triple(4, 40, 30),
        triple(6, 80, 60),
        triple(20, 250, 150),
        triple(30, 500, 350),
        triple(8, 500, 500),
    ];
    let mut text = [0u8; 425];
    let written = write_table(&steps, &mut text)?;
    assert!(rt; written <= 425);
    let mut out = [0u8; 425];
    let told = report(&text[0..written], &mut out)?;
    assert!(rt; told == 150);
    assert!(rt; &out[0..50] == b"       0       5       0\n       1      16      30\n".as_slice());
    assert!(rt; &out[125..150] == b"       5     376     500\n".as_slice());
    Ok(())
}

// What was written is read back, number by number.
#[test]
fn a_written_text_is_read_back(rt: HostRuntime) -> Result<(), Fail> {
    let mut text = [0u8; 425];
    let written = write_table(&[triple(2, 1, 1), triple(1, 99_999_999, 0)], &mut text)?;
    assert!(rt; written <= 425);
    let lines = read_table(&text[0..written])?;
    let triples = lines.triples();
    assert!(rt; triples.len() == 2);
    assert!(rt; triples[0].first == 2 && triples[0].second == 1 && triples[0].third == 1);
    assert!(rt; triples[1].first == 1 && triples[1].second == 99_999_999 && triples[1].third == 0);
    Ok(())
}

// A list that is too short is refused, and not a byte of it is touched.
#[test]
fn a_short_list_is_left_alone(rt: HostRuntime) -> Result<(), Fail> {
    let mut out = [7u8; 424];
    let told = refusal(report(b"anything", &mut out));
    assert_eq!(rt; told, Some((15, Layer::Text, (0, 424))));
    for byte in out {
        assert!(rt; byte == 7);
    }
    Ok(())
}

// A row that breaks its bounds is named, and the table is as it was.
#[test]
fn a_refused_row_leaves_the_table(rt: HostRuntime) -> Result<(), Fail> {
    let mut table = Table::new();
    table.add(2, 7, 7)?;
    assert_eq!(rt;
        refusal(table.add(8, 7, 7)),
        Some((32, Layer::Table, (2, 0)))
    );
    assert!(rt; table.rows().len() == 1);
    table.add(2, 15, 15)?;
    assert!(rt; table.rows().len() == 2);
    Ok(())
}

// The host gives the whole budget at once and then nothing that it need not: the grants that come are just the bound.
#[test]
fn a_late_grant_still_comes(rt: HostRuntime) -> Result<(), Fail> {
    let mut server = PeriodicServer::new(2, 4)?;
    assert_eq!(rt; server.tick(true), Grant::Granted);
    assert_eq!(rt; server.tick(true), Grant::Granted);
    let grants = (0..14)
        .filter(|_| server.tick(false) == Grant::Granted)
        .count();
    assert_eq!(rt; grants, 6);
    assert_eq!(rt; server.bound(14), Some(6));
    assert_eq!(rt; server.bound(1_000_001), None);
    Ok(())
}

// The same two rows are accepted by both orders, and a smaller budget breaks the first of them.
#[test]
fn a_smaller_budget_breaks_a_row(rt: HostRuntime) -> Result<(), Fail> {
    let mut table = Table::new();
    table.add(2, 7, 7)?;
    table.add(2, 15, 15)?;
    let rented = PeriodicServer::new(2, 4)?;
    assert_eq!(rt; busy_window(&table, &rented)?, 14);
    assert_eq!(rt; earliest_deadline(&table, &rented)?, 14);
    let responses = fixed_priority(&table, &rented)?;
    let times = responses.times();
    assert!(rt; times.len() == 2);
    assert_eq!(rt; times[0], 6);
    assert_eq!(rt; times[1], 14);
    let too_small = fixed_priority(&table, &PeriodicServer::new(1, 4)?);
    assert_eq!(rt; refusal(too_small), Some((41, Layer::Decision, (1, 7))));
    Ok(())
}
