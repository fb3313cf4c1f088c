//! Names of cases, fields and parameters that a later one repeats, but for ASCII case.

ghost use Rattle.std.specs.Prelude.{◌≡◌, IfOk};

use placed_sites::{Site, SiteRule, Spot};
use site_parts::{
    ItemRule, Repeats, Standing, Titled, cases_at, fields_at, first_among, first_repeat,
    signatures_at,
};
use std::alloc::{AllocError, Global};
use wr_base::{Code, Param, Refusal, Signature, lowered};

// The names of parts in lower case.
struct Titles;

impl<'a, X: Titled> Repeats<Standing<'a, X>> for Titles {
    ghost use Rattle.wr_base.specs.Lower.{lower};

    ghost key = { λ _ it. lower (X.title it.part) };

    ghost spot = { λ _ it. it.spot };

    fn key(&self, alloc: Global, item: &Standing<'a, X>) -> Result<String, AllocError> {
        lowered(alloc, item.part().title().as_str())
    }

    fn spot<'s>(&'s self, item: &'s Standing<'a, X>) -> Spot<'s> {
        item.spot()
    }
}

// The names of a signature's parameters in lower case.
#[derive(Drop)]
struct ParamNames<'a> {
    spot: Spot<'a>,
}

impl<'a> Repeats<Param> for ParamNames<'a> {
    ghost use Rattle.wr_base.specs.Lower.{lower};
    ghost use Rattle.placed_sites.specs.Views.{spot_view};

    ghost key = { λ _ param. lower param.name };

    ghost spot = { λ names _. spot_view names.spot };

    fn key(&self, alloc: Global, item: &Param) -> Result<String, AllocError> {
        lowered(alloc, item.name.as_str())
    }

    fn spot<'s>(&'s self, _item: &'s Param) -> Spot<'s> {
        self.spot
    }
}

// Refuses a signature of which a later parameter repeats a name.
struct SignatureRepeat;

impl<'a> ItemRule<Standing<'a, Signature>> for SignatureRepeat {
    ghost use Rattle.ranked.specs.Repeats.{Repeated};
    ghost use Rattle.wr_base.specs.declared.code.Code.TheVariants.{ParamRepeat as repeat};
    ghost use Rattle.wr_rules.specs.Sites.{broken_at};
    ghost use Rattle.wr_base.specs.Lower.{lower};

    ghost broken = { λ _ g. Repeated (λ p. lower p.name) (λ p. broken_at repeat g.spot) g.part.params };

    fn first_at(
        &self,
        alloc: Global,
        item: &Standing<'a, Signature>,
    ) -> Result<Option<Refusal>, AllocError> {
        let names = ParamNames { spot: item.spot() };
        first_repeat(
            alloc,
            &names,
            item.part().params.as_slice(),
            Code::ParamRepeat,
        )
    }
}

/// Refuses a case that repeats the name of an earlier one.
#[derive(Clone, Copy, Debug)]
pub struct EnumRepeat;

impl SiteRule for EnumRepeat {
    ghost use Rattle.wr_rules.specs.MemberRules.{IsEnumRepeat};

    ghost broken = { λ _. IsEnumRepeat };

    fn first_at(&self, alloc: Global, site: &Site) -> Result<Option<Refusal>, AllocError> {
        let cases = cases_at(alloc, site)?;
        first_repeat(alloc, &Titles, cases.as_slice(), Code::EnumRepeat)
    }
}

/// Refuses a field that repeats the name of an earlier one.
#[derive(Clone, Copy, Debug)]
pub struct FieldRepeat;

impl SiteRule for FieldRepeat {
    ghost use Rattle.wr_rules.specs.MemberRules.{IsFieldRepeat};

    ghost broken = { λ _. IsFieldRepeat };

    fn first_at(&self, alloc: Global, site: &Site) -> Result<Option<Refusal>, AllocError> {
        let fields = fields_at(alloc, site)?;
        first_repeat(alloc, &Titles, fields.as_slice(), Code::FieldRepeat)
    }
}

/// Refuses a member or a delegate of which a parameter repeats the name of an earlier one.
#[derive(Clone, Copy, Debug)]
pub struct ParamRepeat;

impl SiteRule for ParamRepeat {
    ghost use Rattle.wr_rules.specs.MemberRules.{IsParamRepeat};

    ghost broken = { λ _. IsParamRepeat };

    fn first_at(&self, alloc: Global, site: &Site) -> Result<Option<Refusal>, AllocError> {
        let signatures = signatures_at(alloc, site)?;
        first_among(alloc, &SignatureRepeat, signatures.as_slice())
    }
}
