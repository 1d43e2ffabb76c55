//! Laws on the numbers of all reasons, for proofs of callers. Each function does nothing, and its
//! caller knows what it ensures.
ghost use Rattle.std.specs.Prelude.{◌≡◌, ◌<◌};
ghost use Rattle.cfgx_syntax.specs.Error.{Cause, cause_members, cause_number, cause_terms};
ghost use Rattle.cfgx_syntax.specs.Terms.{HasNumberedTerms, Terms, list_number, terms_number};

/// Two reasons with the same number, the same number of members and the same terms are the same.
pub fn reasons_have_different_numbers()
    ensures { (one : Cause) (other : Cause) → cause_number one ≡ cause_number other
        → cause_members one ≡ cause_members other → cause_terms one ≡ cause_terms other
        → one ≡ other }
{}

/// Different lists of terms have different numbers, if they have a number above 0.
pub fn lists_have_different_numbers()
    ensures { (one : Terms) (other : Terms) → 0 < list_number one
        → list_number one ≡ list_number other → one ≡ other }
{}

/// The three numbers that a caller in C has of a reason say which it is, if its list of terms has a
/// number.
pub fn numbers_name_the_reason()
    ensures { (one : Cause) (other : Cause) → HasNumberedTerms one → HasNumberedTerms other
        → cause_number one ≡ cause_number other → cause_members one ≡ cause_members other
        → terms_number one ≡ terms_number other → one ≡ other }
{}
