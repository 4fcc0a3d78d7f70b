//! What is open at a place of a text.
ghost use Rattle.std.specs.Prelude.{◌≡◌, ◌++◌, ◌∷◌, [], IfOk, OnOk};
ghost use Rattle.remedies.specs.Openings.{action_of, after, begin_in, body_introduced, innermost, lead_of, nothing_open, open_after, openings_from, opened_in, with_introduced, without_innermost};

use crate::opening::{Action, Lead, Opened, Opening, action_of, begun, body_of, lead_of};
use lexer::{Token, TokenKind};
use std::alloc::{AllocError, Global};
use std::marker::Model;

/// What is open, the innermost last; what the next `is` opens; and the kind of the last token.
#[derive(Drop)]
struct Openings {
    parts: Vec<Opening>,
    introduced: Option<Opening>,
    lead: Lead,
}

impl Model for Openings {
    ghost use Rattle.remedies.specs.Openings as specified;

    ghost Value = { specified.Openings };

    ghost view = { λ o. record { parts = o.parts.items; introduced = o.introduced; lead = o.lead } };
}

fn innermost(parts: &[Opening]) -> Option<Opening>
    ensures { result ≡ innermost parts.now }
{
    parts.last().copied()
}

fn opened_in(parts: &[Opening], opened: Opened) -> Opened
    ensures { result ≡ opened_in parts.now opened }
{
    match (parts, opened) {
        ([], Opened::Declarations) => Opened::Main,
        _ => opened,
    }
}

fn body_introduced(introduced: Option<Opening>) -> Option<Opening>
    ensures { result ≡ body_introduced introduced }
{
    match introduced {
        Some(opening) => Some(Opening {
            opened: body_of(opening.opened),
            before: opening.before,
        }),
        None => None,
    }
}

impl Openings {
    fn new(alloc: Global) -> Openings
        ensures { result ≡ nothing_open }
    {
        Openings {
            parts: Vec::new(alloc),
            introduced: None,
            lead: Lead::Other,
        }
    }

    fn innermost(&self) -> Option<Opening>
        ensures { result ≡ innermost self.now.parts }
    {
        innermost(&self.parts)
    }

    fn open(&mut self, opened: Opened, before: usize) -> Result<(), AllocError>
        ensures { OnOk result (self.new ≡ record self.old { parts = self.old.parts ++ record { opened = opened; before = before } ∷ [] }) }
    {
        self.parts.push(Opening { opened, before })?;
        Ok(())
    }

    fn close(&mut self)
        ensures { self.new ≡ record self.old { parts = without_innermost self.old.parts } }
    {
        self.parts.pop();
    }

    fn introduce(&mut self, introduced: Option<Opening>)
        ensures { self.new ≡ record self.old { introduced = introduced } }
    {
        self.introduced = introduced;
    }

    // What was open last is open as something else.
    fn exchange(&mut self, opened: Opened, before: usize) -> Result<(), AllocError>
        ensures { OnOk result (self.new ≡ record self.old { parts = without_innermost self.old.parts ++ record { opened = opened; before = before } ∷ [] }) }
    {
        self.close();
        self.open(opened, before)
    }

    fn begin(&mut self, before: usize) -> Result<(), AllocError>
        ensures { OnOk result (self.new ≡ record self.old { parts = begin_in self.old.parts before (innermost self.old.parts) }) }
    {
        if let Some(opening) = self.innermost()
            && let Some(opened) = begun(opening.opened)
        {
            return self.exchange(opened, opening.before);
        }
        self.open(Opened::Block, before)
    }

    fn open_introduced(&mut self) -> Result<(), AllocError>
        ensures { OnOk result (self.new ≡ record self.old { parts = with_introduced self.old.parts self.old.introduced; introduced = None }) }
    {
        if let Some(opening) = self.introduced {
            let opened = opened_in(&self.parts, opening.opened);
            self.open(opened, opening.before)?;
        }
        self.introduce(None);
        Ok(())
    }

    // Does what a token does that has so many in front, but for its kind.
    fn act(&mut self, before: usize, action: Action) -> Result<(), AllocError>
        ensures { OnOk result (self.new ≡ after self.old before action) }
    {
        match action {
            Action::Opens(Opened::Case) => {
                self.introduce(None);
                self.open(Opened::Case, before)
            }
            Action::Opens(opened) => self.open(opened, before),
            Action::Closes => {
                self.close();
                Ok(())
            }
            Action::Begins => self.begin(before),
            Action::IntroducesBody => {
                self.introduce(body_introduced(self.introduced));
                Ok(())
            }
            Action::Introduces(opened) => {
                self.introduce(Some(Opening { opened, before }));
                Ok(())
            }
            Action::IntroducesNothing => {
                self.introduce(None);
                Ok(())
            }
            Action::OpensIntroduced => self.open_introduced(),
            Action::Nothing => Ok(()),
        }
    }

    // Reads a token that has so many in front.
    fn read(&mut self, before: usize, kind: &TokenKind) -> Result<(), AllocError>
        ensures { OnOk result (self.new ≡ record (after self.old before (action_of kind.now self.old.lead)) { lead = lead_of kind.now }) }
    {
        self.act(before, action_of(kind, self.lead))?;
        self.lead = lead_of(kind);
        Ok(())
    }
}

/// What was opened last and isn't closed after these tokens, the first ones of a text; None where nothing is.
///
/// # Errors
/// Where memory was refused.
pub(crate) fn open_after(alloc: Global, tokens: &[Token]) -> Result<Option<Opening>, AllocError>
    ensures { IfOk result (λ opening. opening ≡ open_after tokens.now) }
{
    let mut openings = Openings::new(alloc);
    for (before, token) in tokens.iter().enumerate() {
        openings.read(before, &token.kind)?;
    }
    Ok(openings.innermost())
}
