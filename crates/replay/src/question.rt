// What an evaluation record asks: which rule, with which k, on which scale.
ghost use Rattle.std.specs.Prelude.{◌≡◌};
ghost use Rattle.std.specs.Option.{ok_or};
ghost use Rattle.refusals.specs.declared.Refusal.TheVariants.{UnknownByte};
ghost use Rattle.replay.specs.Questions.{rule_of, scale_of, question_of};

use refusals::Refusal;

// The rules that a record can name.
#[derive(Clone, Copy, PartialEq, Eq, Debug)]
pub(super) enum RuleKind {
    Linear,
}

// The scales that a record can name.
#[derive(Clone, Copy, PartialEq, Eq, Debug)]
pub(super) enum ScaleKind {
    Count,
}

// The rule, its k and the scale.
#[derive(Clone, Copy, PartialEq, Eq, Debug)]
pub(super) struct Question {
    pub(super) rule: RuleKind,
    pub(super) k: usize,
    pub(super) scale: ScaleKind,
}

// The rule that a byte names. This impl and the next are alike in shape alone: each kind has bytes and cases of its own.
impl TryFrom<u8> for RuleKind {
    type Error = Refusal;

    ghost try_from_gives = { λ byte rule. rule ≡ ok_or (rule_of byte) UnknownByte };

    fn try_from(byte: u8) -> Result<RuleKind, Refusal> {
        match byte {
            1 => Ok(RuleKind::Linear),
            _ => Err(Refusal::UnknownByte),
        }
    }
}

// The scale that a byte names.
impl TryFrom<u8> for ScaleKind {
    type Error = Refusal;

    ghost try_from_gives = { λ byte scale. scale ≡ ok_or (scale_of byte) UnknownByte };

    fn try_from(byte: u8) -> Result<ScaleKind, Refusal> {
        match byte {
            2 => Ok(ScaleKind::Count),
            _ => Err(Refusal::UnknownByte),
        }
    }
}

// The question that a body asks, in three bytes.
impl TryFrom<&[u8; 3]> for Question {
    type Error = Refusal;

    ghost try_from_gives = { λ body asked. asked ≡ question_of body.now };

    fn try_from(body: &[u8; 3]) -> Result<Question, Refusal> {
        let [rule, k, scale] = *body;
        Ok(Question {
            rule: RuleKind::try_from(rule)?,
            k: usize::from(k),
            scale: ScaleKind::try_from(scale)?,
        })
    }
}
