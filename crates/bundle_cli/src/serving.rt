//! The command `serve`: its sockets, and what is said of them.

use crate::sockets::{Cause, Ends, Unusable, links_over};
use console::{run_over, slip_of};
use edge_traits::{Pause, SystemClock};
use gateway_run::Word;
use std::io;
use std::process::ExitCode;

/// The status of a call whose sockets can't be used.
const UNUSABLE: u8 = 5;

/// Serves between the sockets at these addresses: those of the old link's own end and of its peer, and then
/// of the new link's.
pub fn serve(rt: &HostRuntime, words: &[Word], addresses: [&Word; 4]) -> ExitCode {
    let pause = Pause::new(rt);
    let (mut old, mut new) = match links_over(rt, addresses, &pause) {
        Ok(links) => links,
        Err(address) => return unusable(rt, address),
    };
    announce(rt, words, old.ends, new.ends);
    let mut clock = SystemClock::new(rt);
    run_over(rt, words, &mut old.link, &mut new.link, &mut clock)
}

/// Says what a gateway is that begins: what is bound, with whom, by which engines, with which policy.
fn announce<R: Eprint>(rt: &R, words: &[Word], old: Ends, new: Ends) {
    let Some(gate) = words.get(1) else { return };
    if slip_of(words).is_some() {
        return;
    }
    let gate = gate.text();
    let Ends { own, peer } = old;
    let (old_own, old_peer) = (own, peer);
    let Ends { own, peer } = new;
    let _ = eprintln!(rt;
        "fimdahol: serves as {gate}: engine 2 at {old_own} for the old node, engine 1 at {old_peer}; engine 3 at {own} for the new node, engine 4 at {peer}; segments of 1024 octets, waits of 10000 ms that double up to 160000 ms, at most 10 times, pieces of at most 65536 octets"
    );
}

/// Ends a call whose sockets the system can't watch: nothing is run.
pub fn unwatched<R: Eprint>(rt: &R, error: io::Error) -> ExitCode {
    let _ = eprintln!(rt; "fimdahol: the sockets can't be watched: {error}");
    ExitCode::from(UNUSABLE)
}

/// Ends a call with an address that can't be used: nothing is run.
pub fn unusable<R: Eprint>(rt: &R, unusable: Unusable<'_>) -> ExitCode {
    let Unusable {
        name,
        address,
        cause,
    } = unusable;
    let _ = match cause {
        Cause::System(cause) => {
            eprintln!(rt;
                "fimdahol: {name} {address} can't be used: {cause}; an address is such as 192.0.2.1:1113"
            )
        }
        Cause::NoPort => {
            eprintln!(rt; "fimdahol: {name} {address} can't be used: port 0 is none to be found at")
        }
        Cause::Own => {
            eprintln!(rt;
                "fimdahol: {name} {address} can't be used: it is the gateway's own address"
            )
        }
    };
    ExitCode::from(UNUSABLE)
}
