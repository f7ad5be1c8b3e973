// Drives a board from a recorded file: standard input to the listing, or with --explain to the listing explained in plain words.
#![tactic(auto)]

use drivefile::{LONGEST, listing};
use explain::explanation;
use std::io::Read;
use std::{env, io};

// Whether the explanation is asked for, by the one argument --explain. Any other arguments change nothing, readable or not.
fn explains(rt: &HostRuntime) -> bool {
    let Ok(arguments) = env::args(rt) else {
        return false;
    };
    let mut arguments = arguments.skip(1);
    let Some(word) = arguments.next() else {
        return false;
    };
    word.as_str() == "--explain" && arguments.next().is_none()
}

fn main(rt: HostRuntime) -> io::Result<()> {
    let explains = explains(&rt);
    let mut file = Vec::new(rt.alloc());
    // One byte more than a drive file may have, so that a longer one is told without reading it all.
    rt.stdin().take(LONGEST as u64 + 1).read_to_end(&mut file)?;
    let text = if explains {
        explanation(rt.alloc(), file.as_slice())?
    } else {
        listing(rt.alloc(), file.as_slice())?
    };
    rt.stdout().write_all(text.as_slice())
}
