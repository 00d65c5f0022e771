// What each refusal's number means, in words: the sentences, and how one is taken.
ghost use Rattle.std.specs.Prelude.{◌≡◌, ◌≤◌, length};
ghost use Rattle.answers.specs.Lines.{BeginsLine, EndsLine, copied, PutsLine};

// Line n, from line 0 on, is the sentence of number n. An empty line is for a number that no refusal has.
pub const SENTENCES: [u8; 1506] = *b"\
\n\
no disk that is asked for has the image's length: 901120 bytes are 1760 blocks, 1802240 are 3520\n\
the claim area is too short\n\
the image does not begin with a boot tag DOS 0 to DOS 3\n\
a fixed word of the root block is wrong\n\
a key is not in 2 to the last block of the disk\n\
a block is claimed twice, or a chain is too long\n\
the sum of the block is not 0\n\
a type word of the block is wrong\n\
the entry is a link\n\
the own key, the parent or a directory's last link is wrong\n\
the name is not allowed\n\
the name hangs in the wrong slot\n\
the directory has this name twice\n\
the size, the key count, the list link or an empty file's first data key is wrong\n\
the words of the data block are wrong, or the block before does not name it\n\
a bitmap word of the root block is wrong\n\
the bitmap has the bit of this block wrong\n\
the path is not well formed here\n\
there is no such name\n\
a file is used as a directory, or a directory as a file\n\
\n\
\n\
\n\
\n\
\n\
\n\
\n\
\n\
\n\
the file is empty or not made of whole words\n\
the file ends too early\n\
the first word, the hunk count, or the first or last hunk number is wrong\n\
the file names a library\n\
the size of the hunk is too large\n\
this type of block is not allowed here\n\
the count of words is above the size of the hunk\n\
the symbol type is not allowed\n\
the hunk number or the offset is not allowed\n\
there is more after the last hunk\n\
the bases are not one for each hunk, or this one is not allowed\n\
the room is too small\n\
the offset is less than 4 bytes from another one of its hunk\n\
chip and fast memory are asked for at once\n";

// How many bytes these are.
pub fn bytes() -> usize
    ensures { result ≡ length SENTENCES }
{
    SENTENCES.len()
}

// Where the line ends that `at` is in: at a newline, or at the end of the text.
fn line_end(text: &[u8], at: usize) -> usize
    requires { at ≤ length text.now }
    ensures { EndsLine text.now at result }
{
    for i in at..text.len() {
        if text[i] == b'\n' {
            return i;
        }
    }
    text.len()
}

// Where line `number` begins, or else the end of the text.
fn line_start(text: &[u8], number: u32) -> usize
    ensures { BeginsLine text.now number result }
{
    let mut at = 0;
    for _ in 0..number {
        let end = line_end(text, at);
        if end == text.len() {
            return end;
        }
        at = end + 1;
    }
    at
}

// Copies as many bytes as there is room for.
fn copy(from: &[u8], output: &mut [u8])
    ensures { output.new ≡ copied from.now output.old }
{
    let n = from.len().min(output.len());
    words::copy(&from[..n], &mut output[..n]);
}

// Copies line `number` of a text to the output, as far as it fits, and gives the length of the whole line. It is 0 if
// there is no such line.
pub fn put_line(text: &[u8], number: u32, output: &mut [u8]) -> usize
    ensures { PutsLine text.now number output.old result output.new }
{
    let start = line_start(text, number);
    let end = line_end(text, start);
    copy(&text[start..end], output);
    end - start
}
