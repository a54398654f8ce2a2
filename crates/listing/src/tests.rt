// Command lines, understood and refused.
use crate::command::Command;

#[test]
fn a_table_is_listed(rt: HostRuntime) {
    assert!(rt; matches!(Command::read(&[]), Ok(Command::List(None))));
    assert!(rt;
        matches!(
            Command::read(&["yard.txt"]),
            Ok(Command::List(Some("yard.txt")))
        )
    );
    assert!(rt; matches!(Command::read(&["--rows"]), Ok(Command::Rows(None))));
    for words in [["--rows", "yard.txt"], ["yard.txt", "--rows"]] {
        assert!(rt; matches!(Command::read(&words), Ok(Command::Rows(Some("yard.txt")))));
    }
}

#[test]
fn a_number_is_explained(rt: HostRuntime) {
    assert!(rt;
        matches!(
            Command::read(&["--explain", "22"]),
            Ok(Command::Explain(22))
        )
    );
    assert!(rt; matches!(Command::read(&["--rows", "--help"]), Ok(Command::Help)));
}

#[test]
fn other_words_are_refused(rt: HostRuntime) {
    for words in [
        ["--row", "yard.txt"],
        ["--rows", "--rows"],
        ["yard.txt", "--all"],
        ["upper.txt", "lower.txt"],
        ["--explain", "x"],
        ["--explain", "-1"],
        ["--explain", "99999999999999999999"],
    ] {
        assert!(rt; Command::read(&words).is_err());
    }
    assert!(rt; Command::read(&["--explain"]).is_err());
    assert!(rt; Command::read(&["--explain", "22", "23"]).is_err());
}
