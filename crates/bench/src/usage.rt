// How the tool is used, and its version.

// The newest version that CHANGELOG.md names, in the line that says it.
pub fn version(rt: &HostRuntime) {
    let _ = println!(rt; "bench 0.1.0");
}

pub fn say(rt: &HostRuntime) {
    let _ = print!(rt;
        "\
./bench audit IMAGE...                 is each image a volume, and what does it hold\n\
./bench find IMAGE PATH...             what each path leads to; its parts are split by /\n\
./bench read IMAGE PATH                the bytes of a file, and nothing else\n\
./bench load FILE BASE...              the words of a program loaded there, and its hunks\n\
./bench move FILE BASE... to BASE...   the same, moved from the first bases to the second\n\
./bench reset IMAGE PATH BASE...       audit, find, read and load, a line each\n\
-b 1760, 3520 or any, right after a verb with an IMAGE: the blocks of its disk; without it 1760.\n\
A BASE is 1 to 8 hex digits, 0x before them or not; one for each hunk, at most 256 in a list.\n\
Rooms in bytes: image 1802240, file 1802240, program memory 1048576, argument 4096.\n\
Exit status: 0 all accepted, 1 something refused, 2 a wrong use or something unreadable.\n"
    );
}
