use std::test::Fail;
use wwt_words::{Command, Word, WordFault, read_words};

/// What words are read as. They are parted by spaces; `''` is an empty word.
fn told(rt: &HostRuntime, line: &str) -> Result<String, Fail> {
    let alloc = rt.alloc();
    let mut words = Vec::new(alloc);
    for word in line.split(' ') {
        let word = if word == "''" { "" } else { word };
        words.push(String::from_str(alloc, word)?)?;
    }
    match read_words(alloc, &words) {
        Ok(command) => text(rt, &command),
        Err(WordFault::Usage) => Ok(String::from_str(alloc, "usage")?),
        Err(WordFault::NoMemory) => Ok(String::from_str(alloc, "no memory")?),
    }
}

fn text(rt: &HostRuntime, command: &Command) -> Result<String, Fail> {
    let alloc = rt.alloc();
    Ok(match command {
        Command::Run {
            workers,
            trace,
            memory,
            budget,
            machine,
        } => {
            let machine = machine.get();
            format!(in alloc; "run {workers} {trace} {memory} {budget:?} {machine}")?
        }
        Command::Check { machine } => format!(in alloc; "check {}", machine.get())?,
        Command::Load { number, workers } => format!(in alloc; "load {number} {workers}")?,
        Command::Dis { image } => format!(in alloc; "dis {}", image.get())?,
        Command::Flat => String::from_str(alloc, "flat")?,
    })
}

/// Rows of words and what they are read as: the command's name, operands, options, the number of workers, the
/// budget, and the number of a generated machine.
const ROWS: &str = "'' => usage\n\
run => usage\n\
walk m => usage\n\
Run m => usage\n\
-- run m => usage\n\
help => usage\n\
--help => usage\n\
run m => run 1 false false None m\n\
check m => check m\n\
dis m => dis m\n\
load 5 => load 5 1\n\
flat => flat\n\
flat m => usage\n\
flat -- => flat\n\
flat -- m => usage\n\
check => usage\n\
check a b => usage\n\
check '' => check \n\
dis - => dis -\n\
check -- -m => check -m\n\
check -- -- => check --\n\
check m -- => check m\n\
check -m => usage\n\
run -x m => usage\n\
run help => run 1 false false None help\n\
run --trace m => run 1 true false None m\n\
run m --memory --trace => run 1 true true None m\n\
run --trace --trace m => usage\n\
run --trace= m => usage\n\
run --trace=true m => usage\n\
run --help m => usage\n\
run --version m => usage\n\
run -h m => usage\n\
run --work 2 m => usage\n\
run --Trace m => usage\n\
run -- --trace => run 1 false false None --trace\n\
check --trace m => usage\n\
flat --trace => usage\n\
dis --workers 2 m => usage\n\
load --budget 3 5 => usage\n\
run --workers 0 m => usage\n\
run --workers 1 m => run 1 false false None m\n\
run --workers 16 m => run 16 false false None m\n\
run --workers 17 m => usage\n\
run --workers=02 -- m => run 2 false false None m\n\
run --workers=2 --workers=2 m => usage\n\
run --workers= m => usage\n\
run --workers m => usage\n\
run m --workers => usage\n\
run --workers -1 m => usage\n\
run --workers=-1 m => usage\n\
run --workers=+1 m => usage\n\
run --workers=0x2 m => usage\n\
run --workers=00000000000000000003 m => run 3 false false None m\n\
run --workers=000000000000000000003 m => usage\n\
load 5 --workers 3 => load 5 3\n\
run --budget 0 m => usage\n\
run --budget 1 m => run 1 false false Some(1) m\n\
run --budget 1099511627776 m => run 1 false false Some(1099511627776) m\n\
run --budget 1099511627777 m => usage\n\
run --budget 99999999999999999999 m => usage\n\
load => usage\n\
load 0 => load 0 1\n\
load 0007 => load 7 1\n\
load 9999 => load 9999 1\n\
load 10000 => usage\n\
load 7. => usage\n\
load '' => usage\n\
load -- 7 => load 7 1";

#[test]
fn words_are_read_as_told(rt: HostRuntime) -> Result<(), Fail> {
    for row in ROWS.split('\n') {
        let (line, wanted) = row.split_once(" => ").ok_or("no answer in a row")?;
        assert!(rt; told(&rt, line)?.as_str() == wanted, "{row}");
    }
    assert!(rt; matches!(read_words(rt.alloc(), &[]), Err(WordFault::Usage)));
    let word = Word::new(String::from_str(rt.alloc(), "m.json")?);
    assert!(rt; word.into_inner().as_str() == "m.json");
    Ok(())
}
