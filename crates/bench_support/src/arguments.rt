//! The words that a program is started with.

use std::process::ExitCode;
use std::{env, io};

// The first two words after the program's name: an option and what it names, empty where they are lacking.
#[derive(Drop)]
struct Arguments {
    option: String,
    subject: String,
}

// The words of this program.
fn words_of(rt: &HostRuntime) -> io::Result<Arguments> {
    let mut words = env::args(rt)?;
    drop(words.next());
    let (option, subject) = (words.next(), words.next());
    drop(words);
    Ok(Arguments {
        option: option.unwrap_or(String::new(rt.alloc())),
        subject: subject.unwrap_or(String::new(rt.alloc())),
    })
}

/// Does what the words of this program ask for, and gives its status. `print` is called with the option and the subject, and returns
/// whether they ask for something. If they do not, the usage is printed, and the status is 2.
pub fn run_words<P: FnOnce(&str, &str) -> io::Result<bool>>(
    rt: &HostRuntime,
    usage: &str,
    print: P,
) -> io::Result<ExitCode>
    requires { P.IsAlwaysCallable print }
{
    let words = words_of(rt)?;
    let printed = print(words.option.as_str(), words.subject.as_str());
    drop(words);
    if printed? {
        return Ok(ExitCode::SUCCESS);
    }
    eprintln!(rt; "usage: {usage}")?;
    Ok(ExitCode::from(2))
}

/// That what the words ask for was printed.
pub fn is_printed(printed: io::Result<()>) -> io::Result<bool> {
    printed.map(|()| true)
}
