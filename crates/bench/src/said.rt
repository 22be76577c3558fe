// An answer as the paper writes it, so that tests/bench sees that what it measured is what it asked for.
use paper::answers;
use paper::answers::{Answer, Condition, Refusal};
use std::io;

fn digit(n: u8) -> u8 {
    let d = n % 16;
    if d < 10 { 48 + d } else { 55 + d }
}

fn say_condition(rt: &impl Print, k: Condition) -> io::Result<()> {
    let c = answers::code_of(k);
    let mut text = *b"00h/00h\n";
    text[0] = digit(c.code / 16);
    text[1] = digit(c.code);
    text[4] = digit(c.qualifier / 16);
    text[5] = digit(c.qualifier);
    rt.write_all(&text)
}

fn say_refusal(rt: &impl Print, n: Refusal) -> io::Result<()> {
    let mut text = *b"refusal 0\n";
    text[8] = digit(answers::number_of(n));
    rt.write_all(&text)
}

pub fn say_answer(rt: &impl Print, a: Answer) -> io::Result<()> {
    match a {
        Answer::Good => println!(rt; "GOOD"),
        Answer::Check(k) => say_condition(rt, k),
        Answer::Refused(n) => say_refusal(rt, n),
    }
}

pub fn say_kept(rt: &impl Print, kept: bool) -> io::Result<()> {
    if kept {
        println!(rt; "kept")
    } else {
        println!(rt; "broken")
    }
}
