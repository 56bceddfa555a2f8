// Asks about a structure, and prints the answers: the rest of the line that the case's name begins,
// with a string for each concept and in it a character for each element (f, t, or the tag of an
// unresolved construct to base 36); then a line for each axiom, its number and the words of its
// verdict.
use cases::numbers::number_at;
use deck::numbers::{ConceptId, Element};
use deck::refusal::Refusal;
use eval::entry::{check_axiom_in, eval_concept_in};
use eval::judgement::Judgement;
use eval::verdict::Verdict;
use std::io;

// The numbers from `first` on, `count` of them.
#[derive(Clone, Copy)]
struct Span {
    first: u32,
    count: u32,
    next: usize,
}

// The span at place `at` of the data, and the place after it.
fn span_at(data: &[u8], at: usize) -> Span {
    let first = number_at(data, at);
    let count = number_at(data, first.next);
    Span {
        first: first.value,
        count: count.value,
        next: count.next,
    }
}

// A deck, and the structure that is lent with it.
#[derive(Clone, Copy)]
pub struct Lent<'a> {
    pub deck: &'a [u8],
    pub labels: &'a [u64],
    pub elements: u32,
    pub edges: &'a [[u32; 3]],
    pub edge_count: u32,
}

impl Lent<'_> {
    fn judge(&self, concept: u32, element: u32) -> Result<Judgement, Refusal> {
        eval_concept_in(
            self.deck,
            self.labels,
            self.elements,
            self.edges,
            self.edge_count,
            ConceptId(concept),
            Element(element),
        )
    }

    fn check(&self, axiom: u32) -> Result<Verdict, Refusal> {
        check_axiom_in(
            self.deck,
            self.labels,
            self.elements,
            self.edges,
            self.edge_count,
            axiom,
        )
    }
}

fn print_number(rt: &impl Print, n: u32) -> io::Result<()> {
    rt.print(n)
}

fn print_byte(rt: &impl Print, b: u8) -> io::Result<()> {
    let bytes = [b];
    rt.write_all(&bytes)
}

fn digit(tag: u32) -> u8 {
    if tag < 10 {
        (48 + tag) as u8
    } else if tag < 36 {
        (87 + tag) as u8
    } else {
        b'?'
    }
}

fn print_refusal(rt: &impl Print, refusal: Refusal) -> io::Result<()> {
    print!(rt; "refused {refusal}")
}

fn print_judgement(rt: &impl Print, judgement: Judgement) -> io::Result<()> {
    match judgement {
        Judgement::False => print_byte(rt, b'f'),
        Judgement::True => print_byte(rt, b't'),
        Judgement::Unresolved(construct) => print_byte(rt, digit(u32::from(construct))),
    }
}

fn print_concept(rt: &impl Print, answer: Result<Judgement, Refusal>) -> io::Result<()> {
    match answer {
        Err(refusal) => print_refusal(rt, refusal),
        Ok(judgement) => print_judgement(rt, judgement),
    }
}

fn print_words(rt: &impl Print, words: [u32; 4]) -> io::Result<()> {
    print_number(rt, words[0])?;
    print_byte(rt, b' ')?;
    print_number(rt, words[1])?;
    print_byte(rt, b' ')?;
    print_number(rt, words[2])?;
    print_byte(rt, b' ')?;
    print_number(rt, words[3])
}

fn print_axiom(rt: &impl Print, answer: Result<Verdict, Refusal>) -> io::Result<()> {
    match answer {
        Err(refusal) => print_refusal(rt, refusal),
        Ok(verdict) => print_words(rt, verdict.into()),
    }
}

// Asks one concept at each element of the span.
fn concept_row(rt: &impl Print, lent: &Lent, concept: u32, asked: Span) -> io::Result<()> {
    for i in 0..asked.count {
        print_concept(rt, lent.judge(concept, asked.first.wrapping_add(i)))?;
    }
    Ok(())
}

// Asks each concept of the span at each element of the other.
fn concept_rows(rt: &impl Print, lent: &Lent, concepts: Span, asked: Span) -> io::Result<()> {
    for i in 0..concepts.count {
        print_byte(rt, b' ')?;
        concept_row(rt, lent, concepts.first.wrapping_add(i), asked)?;
    }
    print_byte(rt, b'\n')
}

// Asks each axiom of the span.
fn axiom_rows(rt: &impl Print, lent: &Lent, axioms: Span) -> io::Result<()> {
    for i in 0..axioms.count {
        let axiom = axioms.first.wrapping_add(i);
        print_number(rt, axiom)?;
        rt.write_all(b": ")?;
        print_axiom(rt, lent.check(axiom))?;
        print_byte(rt, b'\n')?;
    }
    Ok(())
}

// Asks what stands at place `at` of the data: first concept and count, first element and count,
// first axiom and count. Answers the place after it.
pub fn answer(rt: &impl Print, data: &[u8], at: usize, lent: &Lent) -> io::Result<usize> {
    let concepts = span_at(data, at);
    let asked = span_at(data, concepts.next);
    let axioms = span_at(data, asked.next);
    concept_rows(rt, lent, concepts, asked)?;
    axiom_rows(rt, lent, axioms)?;
    Ok(axioms.next)
}
