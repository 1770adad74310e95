// Measures the short code at width 16 with spans of up to 128 values: `speed ROUNDS` codes that many values and that
// many spans by the users' calls, and prints how many nanoseconds one word takes.
//
// The gate compares what a program writes, and no two runs take the same time. So it runs this program without an
// argument, which then only says how it is called.
#![tactic(auto)]

mod numbers;
mod rounds;

use anyhow::anyhow;
use rounds::{code_many_spans, code_many_values};
use short::code::ShortCode;
use std::time::Instant;
use std::{env, io};

// How many rounds the first argument asks for; None where it is missing, zero or no number.
fn rounds_asked(rt: &HostRuntime) -> io::Result<Option<u32>> {
    let mut arguments = env::args(rt)?;
    let _program = arguments.next();
    let Some(word) = arguments.next() else {
        return Ok(None);
    };
    Ok(word.as_str().parse().ok().filter(|rounds| *rounds > 0))
}

// What the work gives, and the nanoseconds that one of its rounds takes. The rounds are a number of their own and not the
// code's, since this needs them without it.
fn timed<T: Drop, F: FnOnce() -> T>(rt: &HostRuntime, rounds: u32, work: F) -> io::Result<(T, f64)>
    requires { F.IsAlwaysCallable work }
{
    let start = Instant::now(rt)?;
    let given = work();
    let time = start.elapsed(rt)?;
    Ok((given, time.as_secs_f64() * 1e9 / f64::from(rounds)))
}

fn measure(rt: &HostRuntime, code: ShortCode, rounds: u32) -> io::Result<()> {
    let (values, value_time) = timed(rt, rounds, || code_many_values(&code, rounds))?;
    let (spans, span_time) = timed(rt, rounds, || code_many_spans(&code, rounds))?;
    println!(rt; "value word: {value_time:.1} ns")?;
    println!(rt; "span word: {span_time:.1} ns")?;
    println!(rt; "matching: {values} values, {spans} spans")
}

fn run(rt: &HostRuntime) -> anyhow::Result<()> {
    let Some(rounds) = rounds_asked(rt)? else {
        println!(rt; "usage: speed ROUNDS")?;
        return Ok(());
    };
    let code = ShortCode::new(16, 128).map_err(|_| anyhow!(
        "there is no short code of this setting"
    ))?;
    Ok(measure(rt, code, rounds)?)
}

fn main(rt: HostRuntime) -> anyhow::Result<()> {
    run(&rt)
}
