//! The words that an image holds are `i64`, read one by one.
ghost use Rattle.image.specs.WordRanges.{AllFit, ConstantFits, ConstantsFit, ImageFits, ObjectsFit};

use crate::{Instr, Operation, Parts};

impl Parts {
    pub(crate) fn words_fit(&self)
        ensures { ImageFits self.now }
    {
        words_fit(&self.plain_words);
        self.objects_fit();
        constants_fit(&self.instructions);
    }

    fn objects_fit(&self)
        ensures { ObjectsFit self.now.objects }
    {
        for o in &self.objects {
            words_fit(o.words());
        }
    }
}

fn words_fit(words: &[i64])
    ensures { AllFit words.now }
{
    for word in words {
        let _word = *word;
    }
}

fn constant_fits(operation: &Operation)
    ensures { ConstantFits operation.now }
{
    if let Operation::Push(value) = operation {
        let _value = *value;
    }
}

fn constants_fit(instructions: &[Instr])
    ensures { ConstantsFit instructions.now }
{
    for instruction in instructions {
        constant_fits(&instruction.operation);
    }
}
