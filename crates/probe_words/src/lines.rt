// Lines of standard input, and their answers.
use std::alloc::Global;
use std::io;
use std::io::{BufRead, BufReader};
use std::process::ExitCode;

/// Answers orders. It holds what one order leaves for the next.
pub trait Answers {
    /// The answer to an order.
    fn answer(&mut self, alloc: Global, order: &str) -> io::Result<String>;
}

/// Answers each line of standard input in a line. Returns the status 0, or 1 if reading, printing or an answer failed.
pub fn answer_lines<R: Input + Print + AllocGlobal, A: Answers>(
    rt: &R,
    answers: &mut A,
) -> ExitCode {
    match print_answers(rt, answers) {
        Ok(()) => ExitCode::from(0),
        Err(_) => ExitCode::from(1),
    }
}

/// Prints the answer to each line of standard input.
fn print_answers<R: Input + Print + AllocGlobal, A: Answers>(
    rt: &R,
    answers: &mut A,
) -> io::Result<()> {
    for line in BufReader::new(rt.alloc(), rt.reader())?.lines(rt.alloc()) {
        print_answer(rt, answers, &line?)?;
    }
    Ok(())
}

/// Prints the answer to a line: a heading as it is, or what is answered to the order.
fn print_answer<R: Print + AllocGlobal, A: Answers>(
    rt: &R,
    answers: &mut A,
    line: &str,
) -> io::Result<()> {
    if line.starts_with('#') {
        return println!(rt; "{line}");
    }
    let answer = answers.answer(rt.alloc(), line)?;
    println!(rt; "{answer}")
}
