//! A target of one's own.
use cfg_expr::TargetPredicate;
use cfg_expr::expr::TargetMatcher;

/// A target of which two things are known.
#[derive(Drop)]
pub struct Board<'a> {
    /// The operating system
    pub os: &'a str,
    /// The number of bits of a pointer
    pub pointer_width: u8,
}

impl TargetMatcher for Board<'_> {
    ghost use Rattle.cfgx_examples.specs.Board.{board_meets};

    ghost answer = { λ board. board_meets board.os.now board.pointer_width };

    fn matches(&self, tp: &TargetPredicate<'_>) -> bool {
        match tp {
            TargetPredicate::Os(os) => self.os == os.as_str(),
            TargetPredicate::PointerWidth(bits) => self.pointer_width == *bits,
            _ => false,
        }
    }
}
