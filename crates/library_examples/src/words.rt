//! The words of dates and labels.
use dioid::Date;
use std::alloc::Global;
use teg_text::{push_dates, push_label};

// The words of these dates, and of this label.
fn words(alloc: Global, dates: &[Date], label: &str) -> Option<String> {
    let mut text = String::new(alloc);
    push_dates(&mut text, dates).ok()?;
    push_label(&mut text, label).ok()?;
    Some(text)
}

// Whether these are the words of the dates and the label.
fn reads(alloc: Global, dates: &[Date], label: &str, wanted: &str) -> bool {
    match words(alloc, dates, label) {
        Some(text) => text.as_str() == wanted,
        None => false,
    }
}

// Dates and labels with their words.
const WORDS: [(&[Date], &str, &str); 4] = [
    (
        &[Date::At(-3), Date::Never, Date::Early],
        "x",
        " -3 never epsilonx",
    ),
    (
        &[Date::At(i128::MIN), Date::At(i128::MAX)],
        "",
        " -170141183460469231731687303715884105728 170141183460469231731687303715884105727",
    ),
    (&[], "\\ \n", "\\\\\\x20\\x0a"),
    (&[], "\u{e9}", "\\xc3\\xa9"),
];

#[test]
fn dates_and_labels_are_words(rt: HostRuntime) {
    for (dates, label, wanted) in &WORDS {
        assert!(rt; reads(rt.alloc(), dates, label, wanted), "{wanted}");
    }
}
