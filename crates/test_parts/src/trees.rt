//! The trees of modules.
use crate::tree_text::is_spelled;
use std::test::Fail;

/// Sources, and the text of the one module of each, by `tree_text`.
const TEXTS: [(&[u8], &str); 11] = [
    (
        b"module A where { x = a : b :: T }",
        "x@18 = (((:@24 a@22) b@26) :: T@31)",
    ),
    (
        b"module A where { f ~x@(p : q) = p }",
        "f@18 (~ (x@21 @ (:@26 p@24 q@28))) = p@33",
    ),
    (b"module A where { x = (,) 1 }", "x@18 = ((,)@22 1)"),
    (
        b"module A where { import B hiding (x, T, U(..), V(), W(C, D),) }",
        "import B@25 hiding (x@35, T@38, U@41(..), V@48( ), W@53( C@55 D@58 ))",
    ),
    (
        b"module A where { x = case y of { Just z | z -> a | b -> c where { a = z } } }",
        "x@18 = (case y@27 of { (Just@34 z@39) | z@43 -> a@48 | b@52 -> c@57 where { a@67 = z@71 } })",
    ),
    (
        b"module A where { f = \\x -> x : y }",
        "f@18 = (\\ x@23 -> ((:@30 x@28) y@32))",
    ),
    (
        b"module A where { x = if a then if b then c else d else e }",
        "x@18 = (if a@25 then (if b@35 then c@42 else d@49) else e@56)",
    ),
    (
        b"module A where { f :: a -> (b, [c]) -> T d }",
        "signature f@18 :: (a@23 -> ((tuple b@29 (list c@33)) -> (T@40 d@42)))",
    ),
    (
        b"module A where { (x) = 1 ; ((y)) | a = 2 }",
        "x@19 = 1 ; y@30 | a@36 = 2",
    ),
    (
        b"module A where { x : y = p ; ~z = q }",
        "binding@18 (:@20 x@18 y@22) = p@26 ; binding@30 (~ z@31) = q@35",
    ),
    (
        b"module A where { newtype N a = C [a] ; type S a b = a -> b ; data T a = D a (T a) | E }",
        "newtype N@26 a@28 = C@32 (list a@35) ; type S@45 a@47 b@49 = (a@53 -> b@58) ; data T@67 a@69 = D@73 a@75 (T@78 a@80) | E@85",
    ),
];

#[test]
fn texts(rt: HostRuntime) -> Result<(), Fail> {
    let alloc = rt.alloc();
    for (source, text) in &TEXTS {
        assert!(rt; is_spelled(alloc, source, text)?);
    }
    Ok(())
}
