//! The index of a small text over a registry that holds a table which is no text's.
use stabby_layout::Text;
use stabby_registry::{OpenGate, VTableRegistry, VtBtree, WordTable};
use stabby_symbol::{IndexedWord, Span, UnpackFault, index_words, text_of};
use std::test::Fail;

// Whether it is this word, with this number and these spans.
fn is_word(word: &IndexedWord, text: &str, symbol: u64, spans: &[Span]) -> bool {
    word.text().as_str() == text && word.symbol() == symbol && word.spans() == spans
}

#[test]
fn words_of_a_text(rt: HostRuntime) -> Result<(), Fail> {
    let alloc = rt.alloc();
    let Ok((mut registry, mut pass)) = VtBtree::<5>::new(alloc) else {
        return Err("memory")?;
    };
    let Ok(five) = WordTable::from_words(alloc, &[5]) else {
        return Err("memory")?;
    };
    assert!(rt; matches!(registry.insert(&rt, alloc, &mut pass, &five), Ok(0)));
    assert!(rt; pass.is_whole() && pass.seen() == 1);
    let Ok(source) = Text::from_str(alloc, "b a b") else {
        return Err("memory")?;
    };
    let Ok(index) = index_words(&rt, alloc, &mut registry, &mut pass, &source, 1, &OpenGate) else {
        return Err("memory")?;
    };
    let [first, second] = index.words() else {
        return Err("two words")?;
    };
    assert!(rt; is_word(first, "a", 2, &[Span { from: 2, to: 3 }]));
    assert!(rt;
        is_word(
            second,
            "b",
            1,
            &[Span { from: 0, to: 1 }, Span { from: 4, to: 5 }]
        )
    );
    let fault = text_of(&rt, alloc, &registry, &mut pass, 0);
    assert!(rt;
        matches!(
            fault,
            Err(UnpackFault::Length {
                stated: 5,
                words: 0
            })
        )
    );
    let Ok(Some(text)) = text_of(&rt, alloc, &registry, &mut pass, 1) else {
        return Err("number 1 was given")?;
    };
    assert!(rt; text.as_str() == "b");
    assert!(rt; matches!(text_of(&rt, alloc, &registry, &mut pass, 3), Ok(None)));
    Ok(())
}
