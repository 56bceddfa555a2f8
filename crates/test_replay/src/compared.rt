// What a run answers, held to the words of the data, one after the other.
use cases::words::{after, word_or_0};
use deck::numbers::{ConceptId, Element};
use deck::refusal::Refusal;
use eval::entry::eval_concept_in;
use eval::judgement::Judgement;
use std::io;

// The data, and how far it was compared: the next word of it, how many words were, and how many of them differed.
#[derive(Clone, Copy)]
pub struct Compared<'a> {
    pub data: &'a [u8],
    pub at: usize,
    pub words: u64,
    pub differences: u64,
}

// A deck, and the structure that a run built of it.
// Like `Lent` of test_eval, and not shared: cases stands on no other crate.
#[derive(Clone, Copy)]
pub struct Built<'a> {
    pub deck: &'a [u8],
    pub labels: &'a [u64],
    pub elements: u32,
    pub edges: &'a [[u32; 3]],
    pub edge_count: u32,
}

impl Built<'_> {
    fn judge(&self, concept: u32, element: u32) -> Result<Judgement, Refusal> {
        eval_concept_in(
            self.deck,
            self.labels,
            self.elements,
            self.edges,
            self.edge_count,
            ConceptId(concept),
            Element(element),
        )
    }
}

fn print_difference(rt: &impl Print, at: usize, wanted: u32, found: u32) -> io::Result<()> {
    println!(rt; "word {at}: expected {wanted}, found {found}")
}

// 0 false, 1 true, 2 + tag unresolved; a refusal is above these.
fn judgement_word(answer: Result<Judgement, Refusal>) -> u32 {
    match answer {
        Err(refusal) => 1000 + refusal.number() % 100,
        Ok(Judgement::False) => 0,
        Ok(Judgement::True) => 1,
        Ok(Judgement::Unresolved(construct)) => 2 + u32::from(construct) % 100,
    }
}

impl Compared<'_> {
    // One difference more; what is compared next stands at another place.
    pub fn differ(&mut self, at: usize) {
        self.at = at;
        self.differences = self.differences.wrapping_add(1);
    }

    // One word more.
    pub fn expect(&mut self, rt: &impl Print, found: u32) -> io::Result<()> {
        let wanted = word_or_0(self.data, self.at);
        if wanted != found {
            print_difference(rt, self.at, wanted, found)?;
            self.differences = self.differences.wrapping_add(1);
        }
        self.words = self.words.wrapping_add(1);
        self.at = after(self.at, 1);
        Ok(())
    }

    // The first `count` words of labels, or all there are: of each its low half, then its high half.
    pub fn expect_labels(&mut self, rt: &impl Print, labels: &[u64], count: u32) -> io::Result<()> {
        for label in labels.iter().take(count as usize) {
            self.expect(rt, (*label % 4294967296) as u32)?;
            self.expect(rt, (*label / 4294967296) as u32)?;
        }
        Ok(())
    }

    // The first `count` edges, or all there are.
    pub fn expect_edges(
        &mut self,
        rt: &impl Print,
        edges: &[[u32; 3]],
        count: u32,
    ) -> io::Result<()> {
        for edge in edges.iter().take(count as usize) {
            self.expect_words(rt, edge, 3)?;
        }
        Ok(())
    }

    // The first `count` words, or all there are.
    pub fn expect_words(&mut self, rt: &impl Print, words: &[u32], count: u32) -> io::Result<()> {
        for word in words.iter().take(count as usize) {
            self.expect(rt, *word)?;
        }
        Ok(())
    }

    // Every concept at every element.
    pub fn expect_concepts(
        &mut self,
        rt: &impl Print,
        built: Built,
        concepts: u32,
    ) -> io::Result<()> {
        for concept in 0..concepts {
            for element in 0..built.elements {
                self.expect(rt, judgement_word(built.judge(concept, element)))?;
            }
        }
        Ok(())
    }
}
