// How much stack the program may use, by which it chooses the size of its rooms.
//
// The limit is read as text.
use crate::fill;
use std::fs;
use std::rt::Files;

// The stack limit in bytes. 0 where it is not told, and where there is none: an emulator then gives the program a stack of
// its own choice.
pub fn stack_limit<R: Files>(rt: &R) -> u64 {
    let mut page = [0u8; 4096];
    if let Ok(mut file) = fs::open(rt, "/proc/self/limits") {
        fill(&mut file, &mut page);
    }
    limit_in(&page)
}

// The words before the limit on the stack, in a line of the limits.
const STACK: &[u8] = b"Max stack size            ";

// The number in the limits' line on the stack; 0 where there is none.
fn limit_in(page: &[u8]) -> u64 {
    let Some(at) = page.windows(STACK.len()).position(|w| w == STACK) else {
        return 0;
    };
    let behind = &page[at + STACK.len()..];
    let n = behind.iter().take_while(|d| d.is_ascii_digit()).count();
    crate::decimal(&behind[..n]).unwrap_or(0) as u64
}
