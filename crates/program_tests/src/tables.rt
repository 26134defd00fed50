// Settings and options.
use crate::command_words::{OPTIONS_TOLD, TEXTS, VALUES, holds, is_unknown};
use std::test::Fail;
use words::{Name, OPTIONS, Takes, clap_reads_the_uses, options_are_whole};

#[test]
fn words_make_settings(rt: HostRuntime) -> Result<(), Fail> {
    for table in [VALUES, TEXTS] {
        for row in table.split('\n') {
            assert!(rt; holds(rt.alloc(), row)?, "{row}");
        }
    }
    assert!(rt; is_unknown(rt.alloc(), "--help")? && is_unknown(rt.alloc(), "--version")?);
    Ok(())
}

#[test]
fn options_have_their_names_and_values(rt: HostRuntime) -> Result<(), Fail> {
    let mut told = String::new(rt.alloc());
    for option in OPTIONS {
        let row = option.row();
        let usual = row.usual.unwrap_or("none");
        writeln!(told, "{} ({}) {usual}", row.name, row.takes)?;
    }
    assert!(rt; told.as_str() == OPTIONS_TOLD);
    assert!(rt; matches!(Name::Show.row().takes, Takes::Text));
    options_are_whole();
    clap_reads_the_uses();
    Ok(())
}
