// Texts cut into their parts, and parts at a length.
ghost use Rattle.std.specs.Prelude.{◌≡◌, ◌≤◌, length, take, MatchOption};
ghost use Rattle.recipes.specs.Cutting.{before_bar, behind_bar, first_word};

// A line of the soundings: four texts with bars between them. What is printed in front of the answer; numbers; the recipe of the heap; the question.
#[derive(Clone, Copy)]
pub struct Line<'a> {
    pub heading: &'a str,
    pub numbers: &'a str,
    pub recipe: &'a str,
    pub question: &'a str,
}

// The line that a text is, if it has its bars.
pub fn line_of(text: &str) -> Option<Line<'_>>
    ensures { let behind_first = behind_bar text.now in
        let behind_second = behind_bar behind_first in
        MatchOption result
        (before_bar behind_second ≡ behind_second)
        (λ l. (l.heading.now ≡ before_bar text.now)
        × (l.numbers.now ≡ before_bar behind_first)
        × (l.recipe.now ≡ before_bar behind_second)
        × (l.question.now ≡ behind_bar behind_second)) }
{
    let (heading, rest) = text.split_once('|')?;
    let (numbers, rest) = rest.split_once('|')?;
    let (recipe, question) = rest.split_once('|')?;
    Some(Line {
        heading,
        numbers,
        recipe,
        question,
    })
}

// The name that a text begins with.
pub fn name_of(text: &str) -> &str
    ensures { result.now ≡ first_word text.now }
{
    text.split_once(' ').map_or(text, |(name, _)| name)
}

// The numbers behind the name, as far as the row reaches; what is no number is 0.
pub fn numbers_of<'r>(text: &str, row: &'r mut [u32; 16]) -> &'r [u32]
    ensures { length result.now ≤ 16 }
{
    for (place, word) in row.iter_mut().zip(text.split(' ').skip(1)) {
        *place = word.parse().unwrap_or(0);
    }
    let k = text.split(' ').skip(1).count();
    &row[..k.min(16)]
}

// The first words of a part, as much of it as there is.
pub fn first_words(part: &mut [u32], k: u32) -> &mut [u32]
    ensures { result.now ≡ take k part.old }
{
    let n = part.len().min(k as usize);
    &mut part[..n]
}
