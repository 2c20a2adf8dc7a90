//! Broken rules of configurations, each as a sentence.

ghost use Rattle.std.specs.Prelude.{◌≡◌, ◌++◌, Some, codes};
ghost use Rattle.std.specs.Fmt.{decimal};
ghost use Rattle.nvme_program.specs.RuleTexts.{rule_text, sentence_text};
ghost use Rattle.nvme_ns.specs.declared.refusal.BrokenRule.TheVariants as broken;

use nvme_ns::BrokenRule;
use script_text::{NoRoom, Page, Spell, put_labelled};
use std::fmt;

/// A sentence: texts around numbers.
#[derive(Clone, Copy)]
pub enum Sentence {
    Plain(&'static str),
    One(&'static str, u64, &'static str),
    Two(&'static str, u64, &'static str, u64, &'static str),
    Three(&'static str, u64, &'static str, u64, &'static str, u64, &'static str),
}

impl fmt::Display for Sentence {
    ghost output = { λ sentence. Some (sentence_text sentence) };

    fn fmt<W: fmt::Write>(&self, f: &mut fmt::Formatter<W>) -> fmt::Result {
        match self {
            Sentence::Plain(text) => write!(f, "{text}"),
            Sentence::One(front, number, end) => write!(f, "{front}{number}{end}"),
            Sentence::Two(front, first, between, second, end) => {
                write!(f, "{front}{first}{between}{second}{end}")
            }
            Sentence::Three(front, first, after, second, last, third, end) => {
                write!(f, "{front}{first}{after}{second}{last}{third}{end}")
            }
        }
    }
}

impl Spell for Sentence {
    ghost spelled = { sentence_text };

    fn spell<P: Page>(&self, page: &mut P) -> Result<(), NoRoom> {
        match self {
            Sentence::Plain(text) => page.put_str(text),
            Sentence::One(front, number, end) => {
                put_labelled(page, front, *number)?;
                page.put_str(end)
            }
            Sentence::Two(front, first, between, second, end) => {
                put_labelled(page, front, *first)?;
                put_labelled(page, between, *second)?;
                page.put_str(end)
            }
            Sentence::Three(front, first, after, second, last, third, end) => {
                put_labelled(page, front, *first)?;
                put_labelled(page, after, *second)?;
                put_labelled(page, last, *third)?;
                page.put_str(end)
            }
        }
    }
}

/// A sentence about a controller.
fn of_controller(cntlid: u16, said: &'static str) -> Sentence
    ensures { sentence_text result ≡ codes "controller " ++ decimal cntlid ++ said.now }
{
    Sentence::One("controller ", u64::from(cntlid), said)
}

/// A sentence about a namespace.
fn of_namespace(nsid: u32, said: &'static str) -> Sentence
    ensures { sentence_text result ≡ codes "namespace " ++ decimal nsid ++ said.now }
{
    Sentence::One("namespace ", u64::from(nsid), said)
}

/// A sentence about a namespace and a number of blocks.
fn of_blocks(nsid: u32, said: &'static str, blocks: u64, end: &'static str) -> Sentence
    ensures { sentence_text result ≡ codes "namespace " ++ decimal nsid ++ said.now ++ decimal blocks ++ end.now }
{
    Sentence::Two("namespace ", u64::from(nsid), said, blocks, end)
}

#[tactic(auto, unfolding(crate::specs::RuleTexts::rule_text))]
fn too_large(nsid: u32, blocks: u64, most: u64) -> Sentence
    ensures { sentence_text result ≡ rule_text (broken.TooLarge nsid blocks most) }
{
    Sentence::Three(
        "namespace ",
        u64::from(nsid),
        " has ",
        blocks,
        " blocks; at most ",
        most,
        " are allowed",
    )
}

#[tactic(auto, unfolding(crate::specs::RuleTexts::rule_text))]
fn misnumbered(k: usize, cntlid: u16) -> Sentence
    ensures { sentence_text result ≡ rule_text (broken.Misnumbered k cntlid) }
{
    let front = "this must be controller ";
    let said = ", not ";
    let end = ": controllers are numbered from 1";
    Sentence::Two(front, k as u64, said, u64::from(cntlid), end)
}

#[tactic(auto, unfolding(crate::specs::RuleTexts::rule_text))]
fn repeated_attachment(cntlid: u16, nsid: u32) -> Sentence
    ensures { sentence_text result ≡ rule_text (broken.RepeatedAttachment cntlid nsid) }
{
    let said = " is attached to namespace ";
    Sentence::Two(
        "controller ",
        u64::from(cntlid),
        said,
        u64::from(nsid),
        " twice",
    )
}

#[tactic(auto, unfolding(crate::specs::RuleTexts::rule_text))]
fn not_shared(cntlid: u16, nsid: u32) -> Sentence
    ensures { sentence_text result ≡ rule_text (broken.NotShared cntlid nsid) }
{
    let said = " is private, but controller ";
    let end = " is the second that is attached to it";
    Sentence::Two("namespace ", u64::from(nsid), said, u64::from(cntlid), end)
}

/// The sentence for a broken rule.
#[tactic(auto, unfolding(crate::specs::RuleTexts::rule_text))]
pub fn sentence_of(rule: BrokenRule) -> Sentence
    ensures { sentence_text result ≡ rule_text rule }
{
    match rule {
        BrokenRule::TooManyControllers => {
            Sentence::Plain("this is controller 17; at most 16 are allowed")
        }
        BrokenRule::TooManyNamespaces => {
            Sentence::Plain("this is the ninth namespace; at most 8 are allowed")
        }
        BrokenRule::TooManyAttachments => {
            Sentence::Plain("this is attachment 129; at most 128 are allowed")
        }
        BrokenRule::Misnumbered(k, cntlid) => misnumbered(k, cntlid),
        BrokenRule::NoHost(cntlid) => of_controller(
            cntlid,
            " has host 0, which is no host identifier",
        ),
        BrokenRule::ForeignNsid(nsid) => of_namespace(
            nsid,
            " is out of range: identifiers are 1 to 8",
        ),
        BrokenRule::RepeatedNsid(nsid) => of_namespace(nsid, " is defined twice"),
        BrokenRule::UnknownController(cntlid) => of_controller(cntlid, " is not configured"),
        BrokenRule::UnknownNamespace(nsid) => of_namespace(nsid, " is not configured"),
        BrokenRule::RepeatedAttachment(cntlid, nsid) => repeated_attachment(cntlid, nsid),
        BrokenRule::NotShared(cntlid, nsid) => not_shared(cntlid, nsid),
        BrokenRule::NoBlocks(nsid) => of_namespace(nsid, " has no blocks"),
        BrokenRule::TooLarge(nsid, blocks, most) => too_large(nsid, blocks, most),
        BrokenRule::DoesNotFit(nsid, blocks) => {
            let end = " blocks of the medium, on which namespaces follow one another";
            of_blocks(nsid, " ends after the ", blocks, end)
        }
    }
}
