//! Scenarios with bad lines.
use bench_run::conduct::conduct;
use std::test::Fail;

const SCENARIO: &str = "strip fresh 1
open
open now
frob
send 0g
deliver 1
say hi
deliver 2
sender sprout
torn 1 0
# a comment

column 0011
sender grain";

const TRANSCRIPT: &str = "1  strip fresh 1
2  open  ->  refused 1: the key's length is not the cipher's; mark 0, raises left 8
3  open now  ->  bad line: wrong number of words
4  frob  ->  bad line: no such word
5  send 0g  ->  bad line: no hexadecimal digit at byte 1 (counted from 0)
6  deliver 1  ->  bad line: no line above sends a frame of that number
7  say hi  ->  send 1: not made: the build does not admit it here; mark 0, raises left 8
8  deliver 2  ->  bad line: no line above sends a frame of that number
9  sender sprout  ->  bad line: engines and memory are set before the first step
10  torn 1 0  ->  bad line: junk is not 8 hexadecimal digits
11  # a comment
12  
13  column 0011  ->  bad line: a column has words of 8 hexadecimal digits
14  sender grain  ->  bad line: no such engine
frames sent 0, opened 0, refused 0; keystream octets used 0, none twice
";

#[test]
fn a_bad_line_is_named_and_the_others_are_made(rt: HostRuntime) -> Result<(), Fail> {
    let heap = rt.alloc();
    let lines: Vec<String> = SCENARIO
        .lines()
        .map(|line| String::from_str(heap, line))
        .try_collect(heap)?;
    let reply = conduct(heap, lines.as_slice())?;
    assert_eq!(rt; reply.bad_lines, 9);
    assert_eq!(rt; reply.text.as_str(), TRANSCRIPT);
    Ok(())
}
