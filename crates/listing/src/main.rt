#![tactic(auto)]
// Lists a capture from standard input: a line for each record, and the end line.
use listing_loop::Failure;
use std::io::Write;

fn main(rt: HostRuntime) {
    if let Err(failure) = listing_loop::list(&mut rt.stdin(), &mut rt.stdout()) {
        // Kept as a match: the texts are this program's alone.
        let said = match failure {
            Failure::NotRead =>
                "listing: standard input cannot be read: give a capture by '<' or a pipe\n",
            Failure::NotWritten =>
                "listing: standard output cannot be written: the listing is not complete\n",
        };
        let _ = rt.stderr().write_all(said.as_bytes());
    }
}
