// Replays the oracle's iterated fits, robust and not.
#![tactic(auto)]

fn main(rt: HostRuntime) {
    replay_calls::replay(&mut rt.stdin(), &mut rt.stdout(), true);
}
