// Runs the leaves of a volume, and of the words below it, on fixed vectors, and writes a line for each. What the
// lines must be was written by hand from the rules, in the file `stdout`.
#![tactic(auto)]

mod accents;
mod blocks;
mod build;
mod kinds;
mod names;
mod numbers;

fn main(rt: HostRuntime) {
    numbers::words(&rt);
    numbers::sums(&rt);
    names::plain(&rt);
    names::in_blocks(&rt);
    accents::accented(&rt);
    accents::in_blocks(&rt);
    numbers::bits(&rt);
    numbers::sizes(&rt);
    numbers::held(&rt);
    numbers::disk(&rt);
    blocks::root(&rt);
    blocks::map(&rt);
    blocks::bitmap(&rt);
    blocks::directory(&rt);
    blocks::header(&rt);
    blocks::file(&rt);
    blocks::fast_file(&rt);
    blocks::keys(&rt);
    blocks::list(&rt);
    blocks::data(&rt);
    blocks::fast_data(&rt);
}
