// What C and Rust link: numbers and slices of numbers only. Each function is one of the libraries',
// under a name of its own.
#![tactic(auto)]

ghost use Rattle.std.specs.Prelude.{◌≡◌, unwrap_or};

mod elementary_functions;
mod error_functions;
mod file_functions;
mod history_functions;
mod phred_functions;
mod table_functions;
mod umi_functions;
mod writer_functions;

// How many bytes were written as C gets it: 0 where there are none.
fn reply(written: Option<usize>) -> u64
    ensures { result ≡ unwrap_or written 0 }
{
    written.map_or(0, |n| n as u64)
}
