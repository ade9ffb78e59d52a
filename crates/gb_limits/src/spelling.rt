// Written by tools/spellings.py from script.txt and spellings.txt.

use gb_script::terminal::Terminal;

/// How many bytes the longest spelling has.
pub const WIDTH: usize = 12;

/// A spelling of a terminal, filled up with spaces.
#[derive(Clone, Copy)]
pub struct Spelling {
    pub text: [u8; 12],
    pub terminal: Terminal,
}

macro_rules! spellings {
    ($($text:literal $terminal:ident),* $(,)?) => {
        [$(Spelling {
            text: *$text,
            terminal: Terminal::$terminal,
        }),*]
    };
}

/// The spellings of the terminals.
pub const SPELLINGS: [Spelling; 142] = spellings! {
    b"0           " Zero, b"1           " One, b"2           " Two, b"require     " Require,
    b"import      " Import, b"type        " Type, b"op          " Op, b"axiom       " Axiom,
    b"local       " Local, b"lemma       " Lemma, b"module      " Module,
    b"termination " Termination, b"proof       " Proof, b"qed         " Qed,
    b"section     " Section, b"end         " End, b"declare     " Declare,
    b"abstract    " Abstract, b"theory      " Theory, b"clone       " Clone, b"as          " As,
    b"with        " With, b"by          " By, b"undo        " Undo, b"proc        " Proc,
    b"var         " Var, b"return      " Return, b"if          " If, b"else        " Else,
    b"while       " While, b"variant     " Variant, b"unit        " Unit, b"bool        " Bool,
    b"real        " Real, b"int         " Int, b"bits        " Bits, b"option      " Option,
    b"fmap        " Fmap, b"glob        " Glob, b"forall      " Forall, b"exists      " Exists,
    b"fun         " Fun, b"then        " Then, b"uniform     " Uniform, b"weights     " Weights,
    b"hoare       " Hoare, b"phoare      " Phoare, b"equiv       " Equiv,
    b"islossless  " Islossless, b"Pr          " Pr, b"try         " Try, b"do          " Do,
    b"_           " Underscore, b"move        " Move, b"split       " Split, b"left        " Left,
    b"right       " Right, b"assumption  " Assumption, b"trivial     " Trivial,
    b"done        " Done, b"apply       " Apply, b"have        " Have, b"rewrite     " Rewrite,
    b"case        " Case, b"subst       " Subst, b"skip        " Skip, b"wp          " Wp,
    b"sim         " Sim, b"symmetry    " Symmetry, b"seq         " Seq, b"rnd         " Rnd,
    b"call        " Call, b"inline      " Inline, b"swap        " Swap, b"rcondt      " RcondTrue,
    b"rcondf      " RcondFalse, b"unroll      " Unroll, b"kill        " Kill,
    b"conseq      " Conseq, b"transitivity" Transitivity, b"byequiv     " ByEquiv,
    b"byphoare    " ByPhoare, b"fel         " Fel, b"smt         " Smt, b"linear      " Linear,
    b"mu_or       " LawOfOr, b"mu_not      " LawOfNot, b"mu_false    " LawOfFalse,
    b"mu_eq       " LawOfEqual, b"mu_sub      " LawOfSubset, b"mu_ge0      " LawOfLeast,
    b"mu_le1      " LawOfMost, b"mu_split    " SplitLaw, b"eager       " Eager,
    b"(           " OpenRound, b")           " CloseRound, b"[           " OpenSquare,
    b"]           " CloseSquare, b"{           " OpenBrace, b"}           " CloseBrace,
    b"={          " OpenEqual, b".[          " OpenGet, b"`|          " Bars,
    b",           " Comma, b";           " Semicolon, b":           " Colon, b"|           " Bar,
    b"!           " Exclamation, b"?           " Question, b"*           " Times,
    b"+           " Plus, b"-           " Minus, b"/           " Slash, b"`*`         " PowerTimes,
    b"=           " Equals, b"<>          " Different, b"<           " Less,
    b">           " Greater, b"\\in         " In, b"<=          " LessEqual,
    b">=          " GreaterEqual, b"~           " Tilde, b"@           " At,
    b"&           " Ampersand, b"+^          " Xor, b"<-          " Assign,
    b"<$          " Samples, b"<@          " Calls, b"<:          " Below, b"->          " To,
    b"/\\          " And, b"&&          " And, b"\\/          " Or, b"||          " Or,
    b"=>          " Arrow, b"<=>         " DoubleArrow, b"==>         " LongArrow,
    b"//          " Slashes, b"/#          " SlashHash, b"%r          " PercentReal,
    b".`          " DotNumber, b".           " Dot,
};
