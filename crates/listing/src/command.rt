// What the words of the command line ask for.
use anyhow::bail;

#[derive(Drop)]
pub(crate) enum Command<'a> {
    Help,
    Explain(u64),
    List(Option<&'a str>),
    Rows(Option<&'a str>),
}

// The file that is named; none stands for standard input.
fn file<'a>(words: &[&'a str]) -> anyhow::Result<Option<&'a str>> {
    if let Some(word) = words.iter().find(|word| word.starts_with('-')) {
        bail!("unknown word {word}: listing --help says what there is");
    }
    match words {
        [] => Ok(None),
        [word] => Ok(Some(*word)),
        [_, word, ..] => bail!("one table at a time, so what is {word}? listing --help says more"),
    }
}

fn number(words: &[&str]) -> anyhow::Result<u64> {
    let [word] = words else {
        bail!("--explain takes one number: listing --help says which there are");
    };
    let Ok(number) = word.parse() else {
        bail!("{word} is no number to explain: listing --help says which there are");
    };
    Ok(number)
}

impl<'a> Command<'a> {
    pub(crate) fn read(words: &[&'a str]) -> anyhow::Result<Command<'a>> {
        if words.contains(&"--help") {
            return Ok(Command::Help);
        }
        match words {
            [word, rest @ ..] if *word == "--explain" => Ok(Command::Explain(number(rest)?)),
            [word, rest @ ..] | [rest @ .., word] if *word == "--rows" => {
                Ok(Command::Rows(file(rest)?))
            }
            _ => Ok(Command::List(file(words)?)),
        }
    }
}
