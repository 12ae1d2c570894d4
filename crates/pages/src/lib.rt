// The code pages that a string may name: document 02's #109, ISO 8859-1 to 8859-9 by the letters A to I.
//
// A page is a number from 0, page A, to 8, page I. What a string does with it is crate strings' to say.
#![tactic(auto)]

mod tables;

ghost use Rattle.std.specs.Prelude.{◌≡◌};
ghost use Rattle.pages.specs.Pages.{page_of, code_of};

use tables::PAGES;

// The page that a byte selects.
pub fn page_of(letter: u32) -> usize
    ensures { result ≡ page_of letter }
{
    if (65 <= letter) & (letter <= 73) {
        return (letter - 65) as usize;
    }
    if (97 <= letter) & (letter <= 105) {
        return (letter - 97) as usize;
    }
    0
}

// The character that a sum gives on a page. On page A it is the sum, wherever it lies.
pub fn code_on(page: usize, sum: u32) -> u32
    ensures { result ≡ code_of page sum }
{
    if page == 0 {
        return sum;
    }
    if (sum < 160) | (255 < sum) {
        return sum;
    }
    if PAGES.len() <= page {
        return 0xFFFD;
    }
    u32::from(PAGES[page][(sum - 160) as usize])
}
