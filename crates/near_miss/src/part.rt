ghost use Rattle.std.specs.Prelude.{◌≡◌};
ghost use Rattle.near_miss.specs.Helps.Codes.{IsCodeOf};

use matcher_code::Code;
use model_conf::Model;

/// A part of a matcher, as the matcher of a model of its own, and its code. Contracts see that model.
pub(crate) struct Part {
    model: Model,
    code: Code,
}

// Written out, so that a caller's proof sees one call and not the drop of each field.
impl Drop for Part {
    fn drop(self) {
        let Part {
            model: _model,
            code: _code,
        } = self;
    }
}

impl std::marker::Model for Part {
    ghost use Rattle.std.specs.Coded.{Coded, codes};
    ghost use Rattle.model_conf.specs.Helps.ExpressionCode.{Sign, expression_code};
    ghost use Rattle.model_conf.specs.ModelText.{ModelParts};
    ghost use Rattle.near_miss.specs.Helps.Codes.{IsCodeOf};

    ghost Value = { ModelParts };

    ghost coded = { let s : Coded Sign = Prim.hlevel codes in Prim.hlevel (codes, expression_code s) };

    ghost view = { λ p. p.model };

    ghost invariant = { λ p. IsCodeOf p.model p.code };
}

impl Part {
    /// The part with its model and its code.
    pub(crate) fn new(model: Model, code: Code) -> Part
        requires { IsCodeOf model code }
        ensures { result ≡ model }
    {
        Part { model, code }
    }

    /// Its model.
    pub(crate) fn model(&self) -> &Model
        ensures { result.now ≡ self.now }
    {
        &self.model
    }

    /// Its code.
    pub(crate) fn code(&self) -> &Code
        ensures { IsCodeOf self.now result.now }
    {
        &self.code
    }

    /// Its text.
    pub(crate) fn text(&self) -> &str
        ensures { result.now ≡ self.now.matcher_text }
    {
        self.model.matcher_text().as_str()
    }
}
